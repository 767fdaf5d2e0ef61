// The calls by place for programs in other languages, for whoever opened the file before: numbers and bytes only, as in the crate pochahuic. None of them checks the
// file, and all take any bytes and any place in them.

#![tactic(auto)]

ghost use Rattle.std.specs.Prelude.{◌≡◌};
ghost use Rattle.line_bytes.specs.Cells.{line_at};
ghost use Rattle.format.specs.ByPlace.{cell_in, line_after};
ghost use Rattle.format.specs.NamesLine.{kind_in_line, flag_in_line};
ghost use Rattle.pochahuic.specs.Numbers.{place_numbers};

use pochahuic::place_numbers;

// The kind of a column of the names line that starts at `names`, as a number: the C interface has it so (bindings/c/pochahuic.h).
pub fn pochahuic_kind_in(file: &[u8], names: usize, column: u64) -> u64
    ensures { result ≡ kind_in_line (line_at file.now names) column }
{
    exchange::kind_in(file, names, column) as u64
}

// The number of its flag column, 0 where there is none.
pub fn pochahuic_flag_column_in(file: &[u8], names: usize, column: u64) -> u64
    ensures { result ≡ flag_in_line (line_at file.now names) column }
{
    exchange::flag_column(file, names, column)
}

// Where the trimmed cell of a column stands, in the line that starts at `at`: number, line, column, start, length.
pub fn pochahuic_cell_in(file: &[u8], at: usize, column: u64, out: &mut [u64; 5]) -> u64
    ensures value { result ≡ (cell_in file.now at column).number }
    ensures out_after { out.new ≡ place_numbers (cell_in file.now at column) }
{
    let cell = exchange::cell_in(file, at, column);
    *out = place_numbers(cell);
    cell.number
}

// Where the line after the one at `at` starts.
pub fn pochahuic_line_after(file: &[u8], at: usize) -> u64
    ensures { result ≡ line_after file.now at }
{
    exchange::line_after(file, at) as u64
}
