// A line of a file: where it ends, and the first of rules 1 to 5 that it breaks.

#![tactic(auto)]

ghost use Rattle.std.specs.Prelude.{◌≡◌, true, ◌+◌, ◌^◌, ◌≤◌, ◌<◌, length, MatchResult};
ghost use Rattle.format.specs.Faults.{clean, breaks};
ghost use Rattle.line_bytes.specs.Inner.Scans.{Scan};
ghost use Rattle.line_bytes.specs.Inner.Lines.{is_plain};
ghost use Rattle.lines.specs.Inner.Passes.{Plain};
ghost use Rattle.format.specs.Inner.Lines.{line_of};
ghost use Rattle.format.specs.Inner.Faults.{byte_fault};

use format::BrokenRule;
use grid::line_end;
use text::refusals;

// The most bytes of a line, and the column after them.
pub const MOST_BYTES: usize = 8192;

pub const COLUMN_PAST: u64 = 8193;

// Whether the byte is one of 20 to 7E.
fn is_plain(b: u8) -> bool
    ensures { result ≡ is_plain b }
{
    b' ' <= b && b <= b'~'
}

// Whether the N bytes from i on are plain. With no early end, so that the compiler compares them side by side.
fn are_plain<const N: usize>(s: &[u8], i: usize) -> bool
    requires { i + N ≤ length s.now }
    ensures { result ≡ true → Scan is_plain s.now i (i + N) }
{
    let mut plain = true;
    for b in &s[i..i + N] {
        plain &= is_plain(*b);
    }
    plain
}

// Past the blocks of N plain bytes from at on. By hand: a step is a whole block, and what is asked is the place in the file where the steps end.
fn past_plain<const N: usize>(s: &[u8], at: usize, limit: usize) -> usize
    requires size { 0 < N }
    requires range { (at ≤ limit) × (limit ≤ length s.now) }
    ensures { Plain s.now at limit result }
{
    let mut i = at;
    while N <= limit - i && are_plain::<N>(s, i) {
        i += N;
    }
    i
}

// The first byte from at on and below limit that is not plain; limit where there is none. The tail by hand: a search of a slice would be no shorter, since its
// answer counts from the slice's start and may be none.
fn first_odd(s: &[u8], at: usize, limit: usize) -> usize
    requires { (at ≤ limit) × (limit ≤ length s.now) }
    ensures { Plain s.now at limit result }
{
    let mut i = past_plain::<8>(s, past_plain::<32>(s, at, limit), limit);
    while i < limit && is_plain(s[i]) {
        i += 1;
    }
    i
}

// The broken rule of that number, shown at the byte i, which is counted from 1.
fn broken_at(number: u64, i: usize) -> BrokenRule
    requires { i + 1 < 2 ^ 64 }
    ensures { result ≡ record { number = number; column = i + 1 } }
{
    BrokenRule {
        number,
        column: (i as u64) + 1,
    }
}

// The first broken rule of 3, 4 and, where it is asked, 5.
fn byte_rules(line: &[u8], control: bool) -> Result<(), BrokenRule>
    ensures { MatchResult result (λ _. byte_fault control line.now ≡ clean) (λ r. byte_fault control line.now ≡ breaks r.number r.column) }
{
    if let Some(i) = text::ill_formed(line) {
        return Err(broken_at(refusals::ILL_FORMED_UTF8, i));
    }
    if let Some(i) = text::first_return(line) {
        return Err(broken_at(refusals::CARRIAGE_RETURN, i));
    }
    if control {
        if let Some(i) = text::first_control(line) {
            return Err(broken_at(refusals::CONTROL_BYTE, i));
        }
    }
    Ok(())
}

// A line with a byte other than 20 to 7E.
fn odd_line(s: &[u8], at: usize, control: bool) -> Result<usize, BrokenRule>
    requires { at < length s.now }
    ensures { result ≡ line_of control s.now at }
{
    let e = line_end(s, at);
    if MOST_BYTES < e - at {
        return Err(BrokenRule {
            number: refusals::LINE_TOO_LONG,
            column: COLUMN_PAST,
        });
    }
    if s.len() <= e {
        return Err(broken_at(refusals::NO_LINE_FEED, e - at));
    }
    byte_rules(&s[at..e], control)?;
    Ok(e)
}

// A line that starts inside the bytes.
fn line_inside(s: &[u8], at: usize, control: bool) -> Result<usize, BrokenRule>
    requires { at < length s.now }
    ensures { result ≡ line_of control s.now at }
{
    // The search for its end goes past as many bytes as a line may have, and one more.
    let limit = s.len().min(at.saturating_add(MOST_BYTES + 1));
    let o = first_odd(s, at, limit);
    if o < limit && s[o] == b'\n' {
        return Ok(o);
    }
    odd_line(s, at, control)
}

// Where the line that starts at `at` has its line feed, by rules 1 to 4, and 5 where it is asked: a bool, since an enum's two names would say just that. Past the
// last byte there is a line without its line feed.
pub fn line_at(s: &[u8], at: usize, control: bool) -> Result<usize, BrokenRule>
    ensures { result ≡ line_of control s.now at }
{
    if at < s.len() {
        line_inside(s, at, control)
    } else {
        Err(BrokenRule {
            number: refusals::NO_LINE_FEED,
            column: 1,
        })
    }
}
