// What a cell of each kind may say: the record of a judged cell and of a row of them, the ranges of the kinds, and what a good cell leaves noted. No call here scans a cell.

#![tactic(auto)]

ghost use Rattle.std.specs.Prelude.{◌≡◌, ◌-◌, ◌^◌, false};
ghost use Rattle.verdicts.specs.Verdicts.{signed};
ghost use Rattle.verdicts.specs.Judge.{stops_at};

use line_bytes::{Span, limits};

pub mod dates;
pub mod notes;
pub mod ranges;

// A judged cell, which ends at `at`. The number is 0 where it is good, and then `size` has what it writes: a decimal's millionths, else a whole number.
#[derive(Clone, Copy)]
pub struct Judged {
    pub at: usize,
    pub number: u64,
    pub minus: bool,
    pub size: u64,
    pub decimals: u64,
}

impl Judged {
    // A cell that is refused with the number.
    pub fn refused(at: usize, number: u64) -> Judged
        ensures { result ≡ record { at = at; number = number; minus = false; size = 0; decimals = 0 } }
    {
        Judged {
            at,
            number,
            minus: false,
            size: 0,
            decimals: 0,
        }
    }
}

// Where the key cells of a line stand, with their spaces, and the number of its CASTNO.
#[derive(Clone, Copy)]
pub struct Keys {
    pub expocode: Span,
    pub stnnbr: Span,
    pub castno: u64,
}

// Cells judged from the left: how many are good, and how many of those read as missing; the last one judged starts at `start` and ends at `at`.
// It has the fields of that cell's Judged and not the Judged itself: `cells_at`, which judge_cells promises, names them one by one.
#[derive(Clone, Copy)]
pub struct CellsRead {
    pub start: usize,
    pub at: usize,
    pub number: u64,
    pub minus: bool,
    pub size: u64,
    pub decimals: u64,
    pub good: usize,
    pub missing: u64,
    pub keys: Keys,
}

// Whether a line feed stands at e, at i or after it, and the separator is one of a cell's.
pub fn stops(s: &[u8], i: usize, e: usize, separator: u8) -> bool
    ensures { result ≡ stops_at separator s.now i e }
{
    if e < i {
        return false;
    }
    if s.len() <= e {
        return false;
    }
    (s[e] == b'\n') & ((separator == b',') | (separator == b'\n') | (separator == b'\t'))
}

// The number of a sign and a size; minus zero is 0. A size of 10^15 or more, which no good cell has, gives 0.
pub fn signed_size(minus: bool, size: u64) -> i64
    ensures { result ≡ signed minus size }
{
    if limits::TOO_LARGE <= size {
        return 0;
    }
    if minus { -(size as i64) } else { size as i64 }
}

// How many millionths one in the last of so many decimals is. A table: a power of 10 would cut the difference from six at 0, and is no plainer.
pub fn last_place(decimals: u64) -> u64
    ensures { result ≡ 10 ^ (6 - decimals) }
{
    match decimals {
        0 => 1000000,
        1 => 100000,
        2 => 10000,
        3 => 1000,
        4 => 100,
        5 => 10,
        _ => 1,
    }
}
