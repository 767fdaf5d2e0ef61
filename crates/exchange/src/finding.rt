// A row and a column of a file: its cell, or the refusal.
ghost use Rattle.std.specs.Prelude.{◌≡◌, [], cond, ◌-◌, ◌≤◌, length, get_or, ltb};
ghost use Rattle.line_bytes.specs.Cells.{line_at};
ghost use Rattle.line_bytes.specs.Names.{begins_ctd};
ghost use Rattle.format.specs.Columns.{names_of};
ghost use Rattle.format.specs.Grid.{nowhere};
ghost use Rattle.format.specs.Inner.Grid.{cell_span};
ghost use Rattle.exchange.specs.Inner.Cells.{AskedRead};

use columns::kind_in;
use format::Refusal;
use grid::{cell_span, line_end, line_start};
use rules::open_file;
use text::{Span, refusals};

// A cell and its place, with its spaces; its line goes from `at` to its line feed at `feed`; the names line starts at `names`. The
// kind is a byte: it is handed on to text, whose calls are defined for any.
#[derive(Clone, Copy)]
pub struct Cell {
    pub kind: u8,
    pub place: Span,
    pub at: usize,
    pub feed: usize,
    pub names: usize,
}

// The cell of a row and a column, from 1 each, of a file that is checked first.
pub fn find_cell(file: &[u8], row: u64, column: u64) -> Result<Cell, Refusal>
    ensures { AskedRead file.now row column result }
{
    let o = open_file(file).accepted()?;
    let checked = o.checked;
    if (row < 1) | (checked.rows < row) | (column < 1) | (checked.columns < column) {
        return Err(Refusal::nowhere(refusals::NO_SUCH_PLACE));
    }
    let at = line_start(file, o.first, (row - 1) as usize);
    Ok(Cell {
        kind: kind_in(file, o.names, column),
        place: cell_span(file, at, (column - 1) as usize),
        at,
        feed: line_end(file, at),
        names: o.names,
    })
}

// The place of a column's cell, the column counted from 1, of the line that starts at `at`; that of nothing for column 0.
pub fn place_in(file: &[u8], at: usize, column: u64) -> Span
    ensures { result ≡ cond (ltb 0 column) (cell_span file.now at (column - 1)) nowhere }
{
    if 0 < column {
        cell_span(file, at, (column - 1) as usize)
    } else {
        Span { start: 0, len: 0 }
    }
}

// Whether the name of a column, counted from 0, begins with CTD; the names line starts at `names`.
pub fn is_ctd(file: &[u8], names: usize, column: usize) -> bool
    requires { names ≤ length file.now }
    ensures { result ≡ begins_ctd (get_or (names_of (line_at file.now names)) column []) }
{
    let p = cell_span(file, names, column);
    text::begins_ctd(text::trimmed(file, p.start, p.start + p.len))
}
