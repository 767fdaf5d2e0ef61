// Line 1, which says what kind of file it is.

#![tactic(auto)]

ghost use Rattle.std.specs.Prelude.{◌≡◌};
ghost use Rattle.line_bytes.specs.Cells.{line_at};
ghost use Rattle.format.specs.Places.{is_mark};
ghost use Rattle.line_one.specs.Inner.First.{kind_said, first_for};

use format::{BrokenRule, FileKind};
use grid::cell_end;
use lines::line_at;
use text::refusals;

// Line 1 read: where the next line starts, and the kind of file.
#[derive(Clone, Copy)]
pub struct First {
    pub at: usize,
    pub kind: FileKind,
}

// The broken rule of that number, shown at column 1.
fn broken(number: u64) -> BrokenRule
    ensures { result ≡ record { number = number; column = 1 } }
{
    BrokenRule { number, column: 1 }
}

// Whether the line begins with the byte order mark.
fn is_mark(line: &[u8]) -> bool
    ensures { result ≡ is_mark line.now }
{
    line.starts_with(b"\xef\xbb\xbf")
}

// What line 1 says up to its first comma.
fn kind_of_first(s: &[u8]) -> Option<FileKind>
    ensures { result ≡ kind_said (line_at s.now 0) }
{
    let q = cell_end(s, 0);
    if text::same(&s[..q], b"BOTTLE") {
        return Some(FileKind::Bottle);
    }
    if text::same(&s[..q], b"CTD") {
        return Some(FileKind::Ctd);
    }
    None
}

// Line 1 of the file: rules 1 to 5, then 6, 7; 14 where there is none.
pub fn first_line(s: &[u8]) -> Result<First, BrokenRule>
    ensures { result ≡ first_for s.now }
{
    if s.is_empty() {
        return Err(broken(refusals::LINE_DUE));
    }
    let e = line_at(s, 0, true)?;
    if is_mark(&s[..e]) {
        return Err(broken(refusals::BYTE_ORDER_MARK));
    }
    let Some(kind) = kind_of_first(s) else {
        return Err(broken(refusals::BAD_FIRST_LINE));
    };
    Ok(First { at: e + 1, kind })
}
