// What C links: each call of the crates pochahuic, pochahuic_columns, pochahuic_walk and pochahuic_places under its own name, with its clauses; those crates are
// libraries for Rattle, which export nothing.

#![tactic(auto)]

ghost use Rattle.std.specs.Prelude.{◌≡◌, length};
ghost use Rattle.format.specs.Answers.{checked_of, place_for, reading_for, flagged_of};
ghost use Rattle.format.specs.ReadingNumbers.{reading_case, read_millionths, read_value};
ghost use Rattle.format.specs.Records.{profile_of, stationed_of, station_answer};
ghost use Rattle.orders.specs.Corrections.{order_of, answer_of, corrected_of, numbers_of};
ghost use Rattle.orders.specs.ListLines.{line_read};
ghost use Rattle.pochahuic.specs.Numbers.{check_numbers, place_numbers, refusal_of, flag_numbers, profile_numbers, answer_number, line_numbers};
ghost use Rattle.line_bytes.specs.Cells.{line_at};
ghost use Rattle.format.specs.Labels.{named_of, name_place, unit_place, header_for};
ghost use Rattle.format.specs.NamesLine.{column_in_line, kind_in_line, flag_in_line};
ghost use Rattle.format.specs.Opened.{opened_of};
ghost use Rattle.pochahuic_columns.specs.Numbers.{open_numbers, named_numbers, header_numbers, column_numbers};
ghost use Rattle.whole_columns.specs.Columns.{filled_from, values_of, flags_of};
ghost use Rattle.pochahuic_walk.specs.Cursors.{cursor_numbers, cursor_of};
ghost use Rattle.cursors.specs.Walk.{open_of, step_of};
ghost use Rattle.format.specs.ByPlace.{cell_in, line_after};

// Checks a file: number, line, column, kind, columns, rows, profiles, missing readings.
#[unsafe(no_mangle)]
pub extern "C" fn pochahuic_check(file: &[u8], out: &mut [u64; 8]) -> u64
    ensures value { result ≡ (checked_of file.now).number }
    ensures out_after { out.new ≡ check_numbers (checked_of file.now) }
{
    pochahuic::pochahuic_check(file, out)
}

// Where a trimmed cell stands: number, line, column, start, length; the start counts from 0.
#[unsafe(no_mangle)]
pub extern "C" fn pochahuic_cell(file: &[u8], row: u64, column: u64, out: &mut [u64; 5]) -> u64
    ensures value { result ≡ (place_for file.now row column).number }
    ensures out_after { out.new ≡ place_numbers (place_for file.now row column) }
{
    pochahuic::pochahuic_cell(file, row, column, out)
}

// Reads a decimal: PRESENT, MISSING or REFUSED; the millionths and the double, and number, line, column.
#[unsafe(no_mangle)]
pub extern "C" fn pochahuic_decimal(
    file: &[u8],
    row: u64,
    column: u64,
    millionths: &mut i64,
    value: &mut f64,
    out: &mut [u64; 3],
) -> u64
    ensures value { result ≡ reading_case (reading_for file.now row column) }
    ensures millionths_after { millionths.new ≡ read_millionths (reading_for file.now row column) }
    ensures value_after { value.new ≡ read_value (reading_for file.now row column) }
    ensures out_after { out.new ≡ refusal_of (reading_for file.now row column) }
{
    pochahuic::pochahuic_decimal(file, row, column, millionths, value, out)
}

// Reads a flag: number, line, column, flag.
#[unsafe(no_mangle)]
pub extern "C" fn pochahuic_flag(file: &[u8], row: u64, column: u64, out: &mut [u64; 4]) -> u64
    ensures value { result ≡ (flagged_of file.now row column).number }
    ensures out_after { out.new ≡ flag_numbers (flagged_of file.now row column) }
{
    pochahuic::pochahuic_flag(file, row, column, out)
}

// The record of profile k: number, line, column, first row, rows, CASTNO, DATE, whether its time is given, hour, minute.
#[unsafe(no_mangle)]
pub extern "C" fn pochahuic_profile(file: &[u8], k: u64, out: &mut [u64; 10]) -> u64
    ensures value { result ≡ (profile_of file.now k).number }
    ensures out_after { out.new ≡ profile_numbers (profile_of file.now k) }
{
    pochahuic::pochahuic_profile(file, k, out)
}

// Where a station value of profile k stands, by its name: number, line, column, start, length; the start counts from 0.
#[unsafe(no_mangle)]
pub extern "C" fn pochahuic_station<'a>(
    file: &'a [u8],
    k: u64,
    name: &'a [u8],
    out: &mut [u64; 5],
) -> u64
    ensures value { result ≡ (station_answer file.now (stationed_of file.now k name.now)).number }
    ensures out_after { out.new ≡ place_numbers (station_answer file.now (stationed_of file.now k name.now)) }
{
    pochahuic::pochahuic_station(file, k, name, out)
}

// Makes one correction in the file: number, line, column.
#[unsafe(no_mangle)]
pub extern "C" fn pochahuic_correct(
    file: &mut [u8],
    row: u64,
    column: u64,
    millionths: i64,
    decimals: u64,
    flag: u64,
    out: &mut [u64; 3],
) -> u64
    ensures value { result ≡ answer_number (answer_of file.old (order_of row column millionths decimals flag)) }
    ensures file_after { file.new ≡ corrected_of file.old (order_of row column millionths decimals flag) }
    ensures out_after { out.new ≡ numbers_of (answer_of file.old (order_of row column millionths decimals flag)) }
{
    pochahuic::pochahuic_correct(file, row, column, millionths, decimals, flag, out)
}

// Reads one line of a correction list: its millionths, and number, row, the name's start and length, decimals, flag; the start counts from 0.
#[unsafe(no_mangle)]
pub extern "C" fn pochahuic_list_line(line: &[u8], millionths: &mut i64, out: &mut [u64; 6]) -> u64
    ensures value { result ≡ (line_read line.now).number }
    ensures millionths_after { millionths.new ≡ (line_read line.now).millionths }
    ensures out_after { out.new ≡ line_numbers (line_read line.now) }
{
    pochahuic::pochahuic_list_line(line, millionths, out)
}

// Opens a file: the eight numbers of a check, then where its headers, its names line and its first data line start.
#[unsafe(no_mangle)]
pub extern "C" fn pochahuic_open(file: &[u8], out: &mut [u64; 11]) -> u64
    ensures value { result ≡ (opened_of file.now).checked.number }
    ensures out_after { out.new ≡ open_numbers (opened_of file.now) }
{
    pochahuic_columns::pochahuic_open(file, out)
}

// The number of the column of a name: number, line, column, and that number.
#[unsafe(no_mangle)]
pub extern "C" fn pochahuic_column_named<'a>(
    file: &'a [u8],
    name: &'a [u8],
    out: &mut [u64; 4],
) -> u64
    ensures value { result ≡ (named_of file.now name.now).number }
    ensures out_after { out.new ≡ named_numbers (named_of file.now name.now) }
{
    pochahuic_columns::pochahuic_column_named(file, name, out)
}

// The number of the column of a name in the names line that starts at `names`, 0 where there is none. It checks nothing: for whoever opened the file before.
#[unsafe(no_mangle)]
pub extern "C" fn pochahuic_column_in<'a>(file: &'a [u8], names: usize, name: &'a [u8]) -> u64
    ensures { result ≡ column_in_line (line_at file.now names) name.now }
{
    pochahuic_columns::pochahuic_column_in(file, names, name)
}

// Where the name of a column stands: number, line, column, start, length.
#[unsafe(no_mangle)]
pub extern "C" fn pochahuic_name(file: &[u8], column: u64, out: &mut [u64; 5]) -> u64
    ensures value { result ≡ (name_place file.now column).number }
    ensures out_after { out.new ≡ place_numbers (name_place file.now column) }
{
    pochahuic_columns::pochahuic_name(file, column, out)
}

// Where its unit stands, likewise.
#[unsafe(no_mangle)]
pub extern "C" fn pochahuic_unit(file: &[u8], column: u64, out: &mut [u64; 5]) -> u64
    ensures value { result ≡ (unit_place file.now column).number }
    ensures out_after { out.new ≡ place_numbers (unit_place file.now column) }
{
    pochahuic_columns::pochahuic_unit(file, column, out)
}

// Where the name and the value of header k stand: number, line, column, start and length of each.
#[unsafe(no_mangle)]
pub extern "C" fn pochahuic_header(file: &[u8], k: u64, out: &mut [u64; 7]) -> u64
    ensures value { result ≡ (header_for file.now k).number }
    ensures out_after { out.new ≡ header_numbers (header_for file.now k) }
{
    pochahuic_columns::pochahuic_header(file, k, out)
}

// The decimals of a column, one entry of each table for each row: number, line, column, rows.
#[unsafe(no_mangle)]
pub extern "C" fn pochahuic_column_values(
    file: &[u8],
    column: u64,
    cases: &mut [u8],
    millionths: &mut [i64],
    values: &mut [f64],
    out: &mut [u64; 4],
) -> u64
    ensures value { result ≡ (values_of file.now column (length cases.old) (length millionths.old) (length values.old)).number }
    ensures out_after { out.new ≡ column_numbers (values_of file.now column (length cases.old) (length millionths.old) (length values.old)) }
    ensures cases_after { cases.new ≡ filled_from (λ i. reading_case (reading_for file.now i column)) 1 (values_of file.now column (length cases.old) (length millionths.old) (length values.old)).rows cases.old }
    ensures millionths_after { millionths.new ≡ filled_from (λ i. read_millionths (reading_for file.now i column)) 1 (values_of file.now column (length cases.old) (length millionths.old) (length values.old)).rows millionths.old }
    ensures values_after { values.new ≡ filled_from (λ i. read_value (reading_for file.now i column)) 1 (values_of file.now column (length cases.old) (length millionths.old) (length values.old)).rows values.old }
{
    pochahuic_columns::pochahuic_column_values(file, column, cases, millionths, values, out)
}

// The flags of a flag column, one entry for each row: number, line, column, rows.
#[unsafe(no_mangle)]
pub extern "C" fn pochahuic_column_flags(
    file: &[u8],
    column: u64,
    flags: &mut [u8],
    out: &mut [u64; 4],
) -> u64
    ensures value { result ≡ (flags_of file.now column (length flags.old)).number }
    ensures out_after { out.new ≡ column_numbers (flags_of file.now column (length flags.old)) }
    ensures flags_after { flags.new ≡ filled_from (λ i. (flagged_of file.now i column).flag) 1 (flags_of file.now column (length flags.old)).rows flags.old }
{
    pochahuic_columns::pochahuic_column_flags(file, column, flags, out)
}

// Opens a file: checks it and stands on its first cell.
#[unsafe(no_mangle)]
pub extern "C" fn pochahuic_walk_open(file: &[u8], cursor: &mut [u64; 10]) -> u64
    ensures value { result ≡ (open_of file.now).cell.number }
    ensures cursor_after { cursor.new ≡ cursor_numbers (open_of file.now) }
{
    pochahuic_walk::pochahuic_walk_open(file, cursor)
}

// Goes on to the next cell. It checks nothing: the file is the one that was opened.
#[unsafe(no_mangle)]
pub extern "C" fn pochahuic_walk_next(file: &[u8], cursor: &mut [u64; 10]) -> u64
    ensures value { result ≡ (step_of file.now (cursor_of cursor.old)).cell.number }
    ensures cursor_after { cursor.new ≡ cursor_numbers (step_of file.now (cursor_of cursor.old)) }
{
    pochahuic_walk::pochahuic_walk_next(file, cursor)
}

// The kind of a column of the names line that starts at `names`.
#[unsafe(no_mangle)]
pub extern "C" fn pochahuic_kind_in(file: &[u8], names: usize, column: u64) -> u64
    ensures { result ≡ kind_in_line (line_at file.now names) column }
{
    pochahuic_places::pochahuic_kind_in(file, names, column)
}

// The number of its flag column, 0 where there is none.
#[unsafe(no_mangle)]
pub extern "C" fn pochahuic_flag_column_in(file: &[u8], names: usize, column: u64) -> u64
    ensures { result ≡ flag_in_line (line_at file.now names) column }
{
    pochahuic_places::pochahuic_flag_column_in(file, names, column)
}

// Where the trimmed cell of a column stands, in the line that starts at `at`: number, line, column, start, length.
#[unsafe(no_mangle)]
pub extern "C" fn pochahuic_cell_in(file: &[u8], at: usize, column: u64, out: &mut [u64; 5]) -> u64
    ensures value { result ≡ (cell_in file.now at column).number }
    ensures out_after { out.new ≡ place_numbers (cell_in file.now at column) }
{
    pochahuic_places::pochahuic_cell_in(file, at, column, out)
}

// Where the line after the one at `at` starts.
#[unsafe(no_mangle)]
pub extern "C" fn pochahuic_line_after(file: &[u8], at: usize) -> u64
    ensures { result ≡ line_after file.now at }
{
    pochahuic_places::pochahuic_line_after(file, at)
}
