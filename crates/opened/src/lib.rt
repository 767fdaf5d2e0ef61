// A line's cells by the place where the line goes on, for whoever goes row by row in a file that was opened before. Any bytes and any place may come in.

#![tactic(auto)]

ghost use Rattle.std.specs.Prelude.{◌≡◌};
ghost use Rattle.format.specs.ByPlace.{line_after, cell_in, decimal_in, no_flag, flag_in, decimal_step, flag_step};
ghost use Rattle.opened.specs.Inner.Parts.{part_of};

pub use columns::{column_in, flag_column, kind_in};
use format::{CellPlace, DecimalStep, FlagStep, Flagged};
use grid::{cell_span, line_end, line_start, no_place};
use text::{Reading, kinds, refusals};

// Where the line after the one at `at` starts.
pub fn line_after(file: &[u8], at: usize) -> usize
    ensures { result ≡ line_after file.now at }
{
    line_start(file, at, 1)
}

// The place of a trimmed cell.
pub fn cell_in(file: &[u8], at: usize, column: u64) -> CellPlace
    ensures { result ≡ cell_in file.now at column }
{
    let Some(p) = part_in(file, at, column) else {
        return no_place(refusals::NO_SUCH_PLACE, 0, 0);
    };
    CellPlace {
        number: 0,
        line: 0,
        column: 0,
        place: text::trim_span(file, p.start, p.start + p.len),
    }
}

// The reading of a decimal cell.
// A kind is a byte here and in the calls below, and no enum: `decimal_in` and `flag_in` of document 01 say what any byte gives.
pub fn decimal_in(file: &[u8], at: usize, column: u64, kind: u8) -> Reading
    ensures { result ≡ decimal_in file.now at column kind }
{
    decimal_step(file, at, column, kind).reading
}

// The flag in a flag cell.
pub fn flag_in(file: &[u8], at: usize, column: u64, kind: u8) -> Flagged
    ensures { result ≡ flag_in file.now at column kind }
{
    flag_step(file, at, column, kind).flagged
}

// The reading of a decimal cell, and where the next line starts.
pub fn decimal_step(file: &[u8], at: usize, column: u64, kind: u8) -> DecimalStep
    ensures { result ≡ decimal_step file.now at column kind }
{
    match part_in(file, at, column) {
        Some(p) => DecimalStep {
            reading: text::read_decimal(file, p.start, p.feed, b',', kind),
            next: p.next,
        },
        None => DecimalStep {
            reading: Reading::Refused {
                number: refusals::NO_SUCH_PLACE,
                line: 0,
                column: 0,
            },
            next: line_after(file, at),
        },
    }
}

// The flag in a flag cell, and where the next line starts.
pub fn flag_step(file: &[u8], at: usize, column: u64, kind: u8) -> FlagStep
    ensures { result ≡ flag_step file.now at column kind }
{
    let Some(p) = part_in(file, at, column) else {
        return FlagStep {
            flagged: no_flag(refusals::NO_SUCH_PLACE),
            next: line_after(file, at),
        };
    };
    if !matches!(kind, kinds::FLAG | kinds::CTD_FLAG) {
        return FlagStep {
            flagged: no_flag(refusals::COLUMN_OF_OTHER_KIND),
            next: p.next,
        };
    }
    let j = text::judge(file, p.start, p.feed, b',', kind);
    FlagStep {
        flagged: Flagged {
            number: j.number,
            line: 0,
            column: 0,
            flag: j.size,
        },
        next: p.next,
    }
}

fn no_flag(number: u64) -> Flagged
    ensures { result ≡ no_flag number }
{
    Flagged {
        number,
        line: 0,
        column: 0,
        flag: 0,
    }
}

// A cell of a line: it stands at start, with its spaces; the line's line feed at `feed`, and the next line starts at `next`.
#[derive(Clone, Copy)]
pub struct Part {
    pub start: usize,
    pub len: usize,
    pub feed: usize,
    pub next: usize,
}

// The cell of a column, counted from 1, of the line at `at`: none where the line has no line feed or no such cell. Every cell of a line but its first starts
// after the start of the file.
fn part_in(file: &[u8], at: usize, column: u64) -> Option<Part>
    ensures { result ≡ part_of file.now at column }
{
    if column < 1 {
        return None;
    }
    let p = cell_span(file, at, (column - 1) as usize);
    if 1 < column && p.start == 0 {
        return None;
    }
    let feed = line_end(file, p.start);
    if file.len() <= feed {
        return None;
    }
    Some(Part {
        start: p.start,
        len: p.len,
        feed,
        next: feed + 1,
    })
}
