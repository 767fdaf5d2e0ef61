// A file walked cell by cell: checked once when it is opened, then one pass over the bytes of its data lines. Any bytes and any cursor may come in.

#![tactic(auto)]

ghost use Rattle.std.specs.Prelude.{◌≡◌};
ghost use Rattle.line_bytes.specs.Spaces.{IsPart};
ghost use Rattle.cursors.specs.Walk.{at_end, on_cell, open_of, step_of, part_of};

pub use cursors::Cursor;
use format::CellPlace;
use grid::{cell_end, no_place};
use next_cell::{CellAfter, cell_after};
use text::{Span, trim_span};

// Opens a file: checks it and stands on its first cell; at its end, with the refusal, where the file is refused.
pub fn open_at(file: &[u8]) -> Cursor
    ensures { result ≡ open_of file.now }
{
    let o = rules::open_file(file);
    let c = o.checked;
    let end = Cursor {
        cell: no_place(c.number, c.line, c.column),
        stop: 0,
        row: 0,
        column: 0,
        rows: c.rows,
        columns: c.columns,
    };
    if c.number != 0 {
        return end;
    }
    let stop = cell_end(file, o.first);
    let a = CellAfter {
        place: trim_span(file, o.first, stop),
        stop,
    };
    on_cell(end, a, 1, 1)
}

// The next cell: of the row, or else the first of the next row; the end after the last.
pub fn step_at(file: &[u8], cursor: Cursor) -> Cursor
    ensures { result ≡ step_of file.now cursor }
{
    if (cursor.row == 0) | (file.len() <= cursor.stop) {
        return at_end(cursor);
    }
    let (row, column) = if cursor.column < cursor.columns {
        (cursor.row, cursor.column + 1)
    } else if cursor.row < cursor.rows {
        (cursor.row + 1, 1)
    } else {
        return at_end(cursor);
    };
    let a = cell_after(file, cursor.stop + 1);
    on_cell(cursor, a, row, column)
}

// The cell's bytes, a part of the file itself.
pub fn part_at(file: &[u8], cursor: Cursor) -> &[u8]
    ensures { IsPart file.entry result (part_of file.now cursor) }
{
    let start = cursor.cell.place.start;
    let len = cursor.cell.place.len;
    if file.len() < start || file.len() - start < len {
        return &file[..0];
    }
    &file[start..start + len]
}

fn on_cell(cursor: Cursor, a: CellAfter, row: u64, column: u64) -> Cursor
    ensures { result ≡ on_cell cursor a row column }
{
    let place = a.place;
    Cursor {
        cell: CellPlace {
            number: cursor.cell.number,
            line: cursor.cell.line,
            column: cursor.cell.column,
            place,
        },
        stop: a.stop,
        row,
        column,
        rows: cursor.rows,
        columns: cursor.columns,
    }
}

fn at_end(cursor: Cursor) -> Cursor
    ensures { result ≡ at_end cursor }
{
    let nothing = CellAfter {
        place: Span { start: 0, len: 0 },
        stop: 0,
    };
    on_cell(cursor, nothing, 0, 0)
}
