// A file walked cell by cell: opened once, stepped to its end, and asked three times more after that.
use crate::crc::Crc;
use crate::puts::{MOST_ANSWER, Page};
use walk::Cursor;

// The cells that were handed out, the CRC-32 of their lines, and the cursor then.
#[derive(Clone, Copy)]
struct Walked {
    cells: usize,
    crc: u32,
    end: Cursor,
}

// A cell's line: its row and column, where it starts, and the length of its part.
fn put_cell(page: &mut Page, file: &[u8], c: Cursor) {
    page.number(c.row);
    page.field(c.column);
    page.field(c.cell.place.start as u64);
    page.field(walk::part_at(file, c).len() as u64);
    page.put(b"\n");
}

// Goes from the first cell to the end; a file has fewer cells than bytes.
fn walk_to_end(file: &[u8]) -> Walked {
    let mut end = walk::open_at(file);
    let mut crc = Crc::new();
    let mut room = [0u8; MOST_ANSWER];
    let mut page = Page::new(&mut room);
    for cells in 0..file.len() {
        if end.row == 0 {
            return Walked {
                cells,
                crc: crc.value(),
                end,
            };
        }
        page.clear();
        put_cell(&mut page, file, end);
        crc.bytes(page.text());
        end = walk::step_at(file, end);
    }
    Walked {
        cells: file.len(),
        crc: crc.value(),
        end,
    }
}

// Whether a cursor says that it is at the end: row and column 0 and the empty part at the file's start.
fn says_end(file: &[u8], c: Cursor) -> bool {
    (c.row, c.column, c.cell.place.start) == (0, 0, 0) && walk::part_at(file, c).is_empty()
}

fn refusal_of(c: Cursor) -> (u64, u64, u64) {
    (c.cell.number, c.cell.line, c.cell.column)
}

// Whether a cursor is at the end and stays there, three times, with its refusal.
fn stays(file: &[u8], end: Cursor) -> bool {
    let mut c = end;
    for _ in 0..4 {
        if !says_end(file, c) || refusal_of(c) != refusal_of(end) {
            return false;
        }
        c = walk::step_at(file, c);
    }
    true
}

// The answer of a walk that has ended; a refused file hands out no cell.
pub fn answer_walk(file: &[u8], out: &mut Page) {
    let Walked { cells, crc, end } = walk_to_end(file);
    let (number, line, column) = refusal_of(end);
    if !stays(file, end) {
        out.put(b"walk past its end");
    } else if number == 0 {
        out.put(b"walk");
        out.field(cells as u64);
        out.crc_field(crc);
    } else if cells != 0 {
        out.put(b"walk in a refused file");
    } else {
        out.refused(number, line, column);
    }
}
