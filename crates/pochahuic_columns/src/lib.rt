// The calls on a file opened once, on its names, units and headers and on whole columns, for programs in other languages: numbers and bytes only, as in the
// crate pochahuic.

#![tactic(auto)]

ghost use Rattle.std.specs.Prelude.{◌≡◌, length};
ghost use Rattle.line_bytes.specs.Cells.{line_at};
ghost use Rattle.format.specs.Answers.{reading_for, flagged_of};
ghost use Rattle.format.specs.Labels.{named_of, name_place, unit_place, header_for};
ghost use Rattle.format.specs.NamesLine.{column_in_line};
ghost use Rattle.format.specs.Opened.{opened_of};
ghost use Rattle.format.specs.ReadingNumbers.{reading_case, read_millionths, read_value};
ghost use Rattle.pochahuic.specs.Numbers.{place_numbers};
ghost use Rattle.pochahuic_columns.specs.Numbers.{open_numbers, named_numbers, header_numbers, column_numbers};
ghost use Rattle.whole_columns.specs.Columns.{filled_from, values_of, flags_of};

use pochahuic::{kind_number, place_numbers};
use whole_columns::ColumnRead;

// Opens a file: the eight numbers of a check, then where its headers, its names line and its first data line start.
pub fn pochahuic_open(file: &[u8], out: &mut [u64; 11]) -> u64
    ensures value { result ≡ (opened_of file.now).checked.number }
    ensures out_after { out.new ≡ open_numbers (opened_of file.now) }
{
    let o = exchange::open_file(file);
    let c = o.checked;
    let kind = kind_number(c.kind);
    // One by one, as pochahuic_check has them: an array of eleven does not take one of eight as its start.
    *out = [
        c.number,
        c.line,
        c.column,
        kind,
        c.columns,
        c.rows,
        c.profiles,
        c.missing,
        o.headers as u64,
        o.names as u64,
        o.first as u64,
    ];
    c.number
}

// The number of the column of a name: number, line, column, and that number.
pub fn pochahuic_column_named<'a>(file: &'a [u8], name: &'a [u8], out: &mut [u64; 4]) -> u64
    ensures value { result ≡ (named_of file.now name.now).number }
    ensures out_after { out.new ≡ named_numbers (named_of file.now name.now) }
{
    let n = exchange::column_named(file, name);
    *out = [n.number, n.line, n.column, n.place];
    n.number
}

// The number of the column of a name in the names line that starts at `names`, 0 where there is none. It checks nothing: for whoever opened the file before.
pub fn pochahuic_column_in<'a>(file: &'a [u8], names: usize, name: &'a [u8]) -> u64
    ensures { result ≡ column_in_line (line_at file.now names) name.now }
{
    exchange::column_in(file, names, name)
}

// Where the name of a column stands: number, line, column, start, length.
pub fn pochahuic_name(file: &[u8], column: u64, out: &mut [u64; 5]) -> u64
    ensures value { result ≡ (name_place file.now column).number }
    ensures out_after { out.new ≡ place_numbers (name_place file.now column) }
{
    let at = exchange::name_place(file, column);
    *out = place_numbers(at);
    at.number
}

// Where its unit stands, likewise: a call for C has its own name and clauses, though it differs from the one above in a call alone.
pub fn pochahuic_unit(file: &[u8], column: u64, out: &mut [u64; 5]) -> u64
    ensures value { result ≡ (unit_place file.now column).number }
    ensures out_after { out.new ≡ place_numbers (unit_place file.now column) }
{
    let at = exchange::unit_place(file, column);
    *out = place_numbers(at);
    at.number
}

// Where the name and the value of header k stand: number, line, column, start and length of each.
pub fn pochahuic_header(file: &[u8], k: u64, out: &mut [u64; 7]) -> u64
    ensures value { result ≡ (header_for file.now k).number }
    ensures out_after { out.new ≡ header_numbers (header_for file.now k) }
{
    let h = exchange::header_place(file, k);
    *out = [
        h.number,
        h.line,
        h.column,
        h.name.start as u64,
        h.name.len as u64,
        h.value.start as u64,
        h.value.len as u64,
    ];
    h.number
}

// Number, line, column, rows. By hand: neither type is of this crate, so there can be no From.
fn column_numbers(r: ColumnRead) -> [u64; 4]
    ensures { result ≡ column_numbers r }
{
    [r.number, r.line, r.column, r.rows]
}

// The decimals of a column, one entry of each table for each row: number, line, column, rows.
pub fn pochahuic_column_values(
    file: &[u8],
    column: u64,
    cases: &mut [u8],
    millionths: &mut [i64],
    values: &mut [f64],
    out: &mut [u64; 4],
) -> u64
    ensures value { result ≡ (values_of file.now column (length cases.old) (length millionths.old) (length values.old)).number }
    ensures out_after { out.new ≡ column_numbers (values_of file.now column (length cases.old) (length millionths.old) (length values.old)) }
    ensures cases_after { cases.new ≡ filled_from (λ i. reading_case (reading_for file.now i column)) 1 (values_of file.now column (length cases.old) (length millionths.old) (length values.old)).rows cases.old }
    ensures millionths_after { millionths.new ≡ filled_from (λ i. read_millionths (reading_for file.now i column)) 1 (values_of file.now column (length cases.old) (length millionths.old) (length values.old)).rows millionths.old }
    ensures values_after { values.new ≡ filled_from (λ i. read_value (reading_for file.now i column)) 1 (values_of file.now column (length cases.old) (length millionths.old) (length values.old)).rows values.old }
{
    let r = whole_columns::column_values(file, column, cases, millionths, values);
    *out = column_numbers(r);
    r.number
}

// The flags of a flag column, one entry for each row: number, line, column, rows.
pub fn pochahuic_column_flags(file: &[u8], column: u64, flags: &mut [u8], out: &mut [u64; 4]) -> u64
    ensures value { result ≡ (flags_of file.now column (length flags.old)).number }
    ensures out_after { out.new ≡ column_numbers (flags_of file.now column (length flags.old)) }
    ensures flags_after { flags.new ≡ filled_from (λ i. (flagged_of file.now i column).flag) 1 (flags_of file.now column (length flags.old)).rows flags.old }
{
    let r = whole_columns::column_flags(file, column, flags);
    *out = column_numbers(r);
    r.number
}
