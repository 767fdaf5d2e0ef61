// A whole column of a file in one call: the file is checked once and then read from row to row into lent tables.

#![tactic(auto)]

ghost use Rattle.std.specs.Prelude.{◌≡◌, length};
ghost use Rattle.format.specs.Answers.{reading_for, flagged_of};
ghost use Rattle.format.specs.ReadingNumbers.{reading_case, read_millionths, read_value};
ghost use Rattle.whole_columns.specs.Columns.{filled_from, rows_given, no_column, values_of, flags_of};

use crate::filling::{fill_flags, fill_values};
use crate::opening::{Column, ReadAs, open_column};
use format::Refusal;

mod filling;
mod opening;

// The cases of a reading in the table of cases, which is of bytes, as the C interface lends it; both numbers are 0 unless it is present.
pub const PRESENT: u8 = 0;

pub const MISSING: u8 = 1;

pub const REFUSED: u8 = 2;

// How many rows are given, where the number is 0; else the refusal: the answer of the definitions values_of and flags_of.
#[derive(Clone, Copy)]
pub struct ColumnRead {
    pub number: u64,
    pub line: u64,
    pub column: u64,
    pub rows: u64,
}

// The decimals of a column, counted from 1: of each row its reading's case, its millionths and its double.
pub fn column_values(
    file: &[u8],
    column: u64,
    cases: &mut [u8],
    millionths: &mut [i64],
    values: &mut [f64],
) -> ColumnRead
    ensures value { result ≡ values_of file.now column (length cases.old) (length millionths.old) (length values.old) }
    ensures cases_after { cases.new ≡ filled_from (λ i. reading_case (reading_for file.now i column)) 1 result.rows cases.old }
    ensures millionths_after { millionths.new ≡ filled_from (λ i. read_millionths (reading_for file.now i column)) 1 result.rows millionths.old }
    ensures values_after { values.new ≡ filled_from (λ i. read_value (reading_for file.now i column)) 1 result.rows values.old }
{
    let room = cases.len().min(millionths.len().min(values.len()));
    match open_column(file, column, ReadAs::Decimals, room) {
        Ok(decimals) => {
            fill_values(file, decimals, cases, millionths, values);
            rows_given(decimals)
        }
        Err(e) => no_column(e),
    }
}

// The flags of a flag column.
pub fn column_flags(file: &[u8], column: u64, flags: &mut [u8]) -> ColumnRead
    ensures value { result ≡ flags_of file.now column (length flags.old) }
    ensures flags_after { flags.new ≡ filled_from (λ i. (flagged_of file.now i column).flag) 1 result.rows flags.old }
{
    match open_column(file, column, ReadAs::Flags, flags.len()) {
        Ok(digits) => {
            fill_flags(file, digits, flags);
            rows_given(digits)
        }
        Err(e) => no_column(e),
    }
}

fn rows_given(found: Column) -> ColumnRead
    ensures { result ≡ rows_given found.rows }
{
    ColumnRead {
        number: 0,
        line: 0,
        column: 0,
        rows: found.rows as u64,
    }
}

fn no_column(e: Refusal) -> ColumnRead
    ensures { result ≡ no_column e.number e.line e.column }
{
    ColumnRead {
        number: e.number,
        line: e.line,
        column: e.column,
        rows: 0,
    }
}
