// Samples of the check.
use crate::file_k::edited;
use text::refusals;

// Whether K, with a text in place of its bytes from a line and column on, is refused so.
fn is_refused(at: u64, from: usize, t: &[u8], number: u64, line: u64, column: u64) -> bool {
    let file = edited(at, from, t);
    let c = exchange::check(&file);
    (c.number == number) & (c.line == line) & (c.column == column)
}

// Whether K is good with these bytes in its comment, and has its counts.
pub fn accepts(t: &[u8]) -> bool {
    let file = edited(2, 3, t);
    let c = exchange::check(&file);
    (c.number == 0) & (c.columns == 9) & (c.rows == 3) & (c.profiles == 2) & (c.missing == 1)
}

// Whether K with these bytes in its comment is refused by 3.
pub fn refuses(t: &[u8]) -> bool {
    is_refused(2, 3, t, refusals::ILL_FORMED_UTF8, 2, 3)
}

pub fn empty_file() -> bool {
    let c = exchange::check(b"");
    (c.number == refusals::LINE_DUE) & (c.line == 1) & (c.column == 1)
}

pub fn blank_salinity() -> bool {
    is_refused(5, 53, b"        ", refusals::BLANK, 5, 53)
}

pub fn flag_zero() -> bool {
    is_refused(7, 62, b"0", refusals::OUT_OF_RANGE, 7, 62)
}

pub fn bottles() -> bool {
    is_refused(1, 7, b"S", refusals::BAD_FIRST_LINE, 1, 1)
}

pub fn line_ends() -> bool {
    is_refused(4, 18, b"\r", refusals::CARRIAGE_RETURN, 4, 18)
}
