// The header lines of a CTD file, each by the rules of its line.

#![tactic(auto)]

ghost use Rattle.std.specs.Prelude.{◌≡◌, ◌+◌, length};
ghost use Rattle.line_bytes.specs.Cells.{line_at};
ghost use Rattle.format.specs.Headers.{raw_name, headers_said, header_kind};
ghost use Rattle.format.specs.Inner.Names.{names_at};
ghost use Rattle.headers.specs.Inner.Headers.{Parted, named_fault_at, first_header_fault_at, header_fault_at, header_for, first_header_for, said_for};

use format::BrokenRule;
use lines::line_at;
use names::place_of;
use text::{Span, kinds, refusals};

// The most header lines.
pub const MOST_HEADERS: usize = 64;

// The most bytes of a header's name.
pub const MOST_NAME_BYTES: usize = 64;

// A bad header line.
const BAD_HEADER: BrokenRule = BrokenRule {
    number: refusals::BAD_HEADER,
    column: 1,
};

// One header line: its line feed, and its first =.
#[derive(Clone, Copy)]
pub struct Header {
    pub end: usize,
    pub equals: usize,
}

// The first header line, and how many headers it says.
#[derive(Clone, Copy)]
pub struct FirstHeader {
    pub header: Header,
    pub said: usize,
}

// The first = of the line that goes on at `at`; where it has none, its end.
pub fn equals_from(s: &[u8], at: usize) -> usize
    ensures { result ≡ at + length (raw_name (line_at s.now at)) }
{
    for i in at..s.len() {
        if s[i] == b'=' || s[i] == b'\n' {
            return i;
        }
    }
    at.max(s.len())
}

// The line that starts at `at`: rules 1 to 5, then a good name before an =.
fn named_line(s: &[u8], at: usize) -> Result<Header, BrokenRule>
    ensures { result ≡ header_for (named_fault_at s.now at) s.now at }
{
    let end = line_at(s, at, true)?;
    let equals = equals_from(s, at);
    let name = text::trimmed(s, at, equals);
    if equals == end || MOST_NAME_BYTES < name.len() || !text::is_name(name) {
        return Err(BAD_HEADER);
    }
    Ok(Header { end, equals })
}

// How many headers the NUMBER_HEADERS line says.
fn headers_said(s: &[u8], at: usize, h: Header) -> Option<usize>
    requires { Parted s.now at h.equals h.end }
    ensures { result ≡ said_for (headers_said (line_at s.now at)) }
{
    if !text::same(text::trimmed(s, at, h.equals), b"NUMBER_HEADERS") {
        return None;
    }
    let v = text::whole(s, h.equals + 1, h.end, b'\n', 2);
    if v.number != 0 {
        return None;
    }
    if v.size == 0 || (MOST_HEADERS as u64) < v.size {
        return None;
    }
    Some(v.size as usize)
}

// The first header line, which starts at `at`: its rules as a header line, then what it says.
pub fn first_header(s: &[u8], at: usize) -> Result<FirstHeader, BrokenRule>
    ensures { result ≡ first_header_for (first_header_fault_at s.now at) s.now at }
{
    let header = named_line(s, at)?;
    let Some(said) = headers_said(s, at, header) else {
        return Err(BAD_HEADER);
    };
    Ok(FirstHeader { header, said })
}

// The kind by which the value of a header of that name is judged: only the station names have one.
fn header_kind(name: &[u8]) -> u8
    ensures { result ≡ header_kind name.now }
{
    let listed = text::catalogue_names();
    let of = text::catalogue_kinds();
    let kind = text::kind_of(&listed, &of, name);
    if kind == kinds::MEASURED {
        kinds::FREE
    } else {
        kind
    }
}

// The rules of a header line after the first: its name is none of the earlier ones, which stand at `places`, and its value is of its kind.
pub fn header_line<'a>(s: &'a [u8], at: usize, places: &'a [Span]) -> Result<Header, BrokenRule>
    ensures { result ≡ header_for (header_fault_at (names_at s.now places.now) s.now at) s.now at }
{
    let h = named_line(s, at)?;
    let name = text::trimmed(s, at, h.equals);
    if place_of(s, places, name).is_some() {
        return Err(BrokenRule {
            number: refusals::NAME_REPEATED,
            column: 1,
        });
    }
    let v = text::judge(s, h.equals + 1, h.end, b'\n', header_kind(name));
    if v.number != 0 {
        return Err(BrokenRule {
            number: v.number,
            column: (h.equals - at) as u64 + 2,
        });
    }
    Ok(h)
}
