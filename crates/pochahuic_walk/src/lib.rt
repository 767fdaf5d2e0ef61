// The walk over a file's cells for programs in other languages: a cursor is ten numbers, which the caller keeps and lends again.

#![tactic(auto)]

ghost use Rattle.std.specs.Prelude.{◌≡◌};
ghost use Rattle.pochahuic_walk.specs.Cursors.{cursor_numbers, cursor_of};
ghost use Rattle.cursors.specs.Walk.{open_of, step_of};

use cursors::Cursor;
use format::CellPlace;
use line_bytes::Span;

// Opens a file: checks it and stands on its first cell.
pub fn pochahuic_walk_open(file: &[u8], cursor: &mut [u64; 10]) -> u64
    ensures value { result ≡ (open_of file.now).cell.number }
    ensures cursor_after { cursor.new ≡ cursor_numbers (open_of file.now) }
{
    let opened = walk::open_at(file);
    *cursor = numbers_of(opened);
    opened.cell.number
}

// Goes on to the next cell. It checks nothing: the file is the one that was opened.
pub fn pochahuic_walk_next(file: &[u8], cursor: &mut [u64; 10]) -> u64
    ensures value { result ≡ (step_of file.now (cursor_of cursor.old)).cell.number }
    ensures cursor_after { cursor.new ≡ cursor_numbers (step_of file.now (cursor_of cursor.old)) }
{
    let next = walk::step_at(file, cursor_of(*cursor));
    *cursor = numbers_of(next);
    next.cell.number
}

// Number, line, column of the refusal; start and length of the cell; row and column; where it ends with its spaces; rows and columns of the file. By hand, as its
// inverse: neither type is of this crate, so there can be no From.
fn numbers_of(c: Cursor) -> [u64; 10]
    ensures { result ≡ cursor_numbers c }
{
    [
        c.cell.number,
        c.cell.line,
        c.cell.column,
        c.cell.place.start as u64,
        c.cell.place.len as u64,
        c.row,
        c.column,
        c.stop as u64,
        c.rows,
        c.columns,
    ]
}

fn cursor_of(numbers: [u64; 10]) -> Cursor
    ensures { result ≡ cursor_of numbers }
{
    Cursor {
        cell: CellPlace {
            number: numbers[0],
            line: numbers[1],
            column: numbers[2],
            place: Span {
                start: numbers[3] as usize,
                len: numbers[4] as usize,
            },
        },
        stop: numbers[7] as usize,
        row: numbers[5],
        column: numbers[6],
        rows: numbers[8],
        columns: numbers[9],
    }
}
