// The rows of a column written into lent tables, row by row.
ghost use Rattle.std.specs.Prelude.{◌≡◌, ◌≤◌, length};
ghost use Rattle.format.specs.Answers.{reading_for, flagged_of};
ghost use Rattle.format.specs.ReadingNumbers.{reading_case, read_millionths, read_value};
ghost use Rattle.whole_columns.specs.Columns.{filled_from};
ghost use Rattle.whole_columns.specs.Inner.Columns.{Stands, entry_for};

use crate::opening::Column;
use crate::{MISSING, PRESENT, REFUSED};
use text::Reading;

// A row's entries in the three tables.
#[derive(Clone, Copy)]
pub struct Entry {
    pub case: u8,
    pub millionths: i64,
    pub value: f64,
}

fn entry_for(r: Reading) -> Entry
    ensures { result ≡ entry_for r }
{
    match r {
        Reading::Present { millionths, value } => Entry {
            case: PRESENT,
            millionths,
            value,
        },
        Reading::Missing => Entry {
            case: MISSING,
            millionths: 0,
            value: 0.0,
        },
        Reading::Refused { .. } => Entry {
            case: REFUSED,
            millionths: 0,
            value: 0.0,
        },
    }
}

// The decimals of a column's rows.
pub fn fill_values(
    file: &[u8],
    found: Column,
    cases: &mut [u8],
    millionths: &mut [i64],
    values: &mut [f64],
)
    requires stands { Stands file.now found }
    requires rows_in_bounds { (found.rows ≤ length cases.old) × (found.rows ≤ length millionths.old) × (found.rows ≤ length values.old) }
    ensures cases_after { cases.new ≡ filled_from (λ i. reading_case (reading_for file.now i found.column)) 1 found.rows cases.old }
    ensures millionths_after { millionths.new ≡ filled_from (λ i. read_millionths (reading_for file.now i found.column)) 1 found.rows millionths.old }
    ensures values_after { values.new ≡ filled_from (λ i. read_value (reading_for file.now i found.column)) 1 found.rows values.old }
{
    let mut at = found.first;
    // By index: of what a loop over a zip of three iter_mut wrote, the proof knows nothing.
    for k in 0..found.rows {
        let d = opened::decimal_step(file, at, found.column, found.kind);
        let x = entry_for(d.reading);
        cases[k] = x.case;
        millionths[k] = x.millionths;
        values[k] = x.value;
        at = d.next;
    }
}

// The flags in the same way; a flag is at most 9. A loop for both calls would take the step and the writes as closures, and be no shorter.
pub fn fill_flags(file: &[u8], found: Column, flags: &mut [u8])
    requires stands { Stands file.now found }
    requires rows_in_bounds { found.rows ≤ length flags.old }
    ensures { flags.new ≡ filled_from (λ i. (flagged_of file.now i found.column).flag) 1 found.rows flags.old }
{
    let mut at = found.first;
    for flag in flags[..found.rows].iter_mut() {
        let f = opened::flag_step(file, at, found.column, found.kind);
        *flag = f.flagged.flag as u8;
        at = f.next;
    }
}
