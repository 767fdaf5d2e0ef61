// A file opened once and then read by place: its rows one after the other, and its names line.
use crate::crc::Crc;
use crate::puts::{MOST_ANSWER, Page};
use text::refusals;

pub fn answer_open(file: &[u8], out: &mut Page) {
    let o = exchange::open_file(file);
    let c = o.checked;
    if c.number != 0 {
        return out.refused(c.number, c.line, c.column);
    }
    out.put(b"opened");
    out.counts(c);
    out.field(o.headers as u64);
    out.field(o.names as u64);
    out.field(o.first as u64);
}

// The kind of a column and its flag column, from the names line.
pub fn answer_column(file: &[u8], column: u64, out: &mut Page) {
    let o = exchange::open_file(file);
    let c = o.checked;
    if c.number != 0 {
        return out.refused(c.number, c.line, c.column);
    }
    if column == 0 || c.columns < column {
        return out.refused(refusals::NO_SUCH_PLACE, 0, 0);
    }
    out.put(b"column");
    out.field(exchange::kind_in(file, o.names, column) as u64);
    out.field(exchange::flag_column(file, o.names, column));
}

// Puts the three answers at a row, each with its line feed; answers where the next row starts, taken from the decimal at even rows, from the flag at odd ones.
fn put_row(file: &[u8], at: usize, row: u64, column: u64, kind: u8, page: &mut Page) -> usize {
    let (reading, flagged, next) = if row % 2 == 0 {
        let step = exchange::decimal_step(file, at, column, kind);
        let flagged = exchange::flag_in(file, at, column, kind);
        (step.reading, flagged, step.next)
    } else {
        let step = exchange::flag_step(file, at, column, kind);
        let reading = exchange::decimal_in(file, at, column, kind);
        (reading, step.flagged, step.next)
    };
    page.place(b"cell", exchange::cell_in(file, at, column));
    page.put(b"\n");
    page.reading(reading);
    page.put(b"\n");
    page.flagged(flagged);
    page.put(b"\n");
    next
}

// The CRC-32 of the answers at so many rows, the first of which is that two lines below the names line.
fn crc_of_rows(file: &[u8], names: usize, rows: u64, column: u64) -> u32 {
    let kind = exchange::kind_in(file, names, column);
    let mut at = exchange::line_after(file, exchange::line_after(file, names));
    let mut crc = Crc::new();
    let mut room = [0u8; MOST_ANSWER];
    let mut page = Page::new(&mut room);
    for row in 0..rows {
        page.clear();
        at = put_row(file, at, row, column, kind, &mut page);
        crc.bytes(page.text());
    }
    crc.value()
}

pub fn answer_rows(file: &[u8], column: u64, out: &mut Page) {
    let o = exchange::open_file(file);
    let c = o.checked;
    if c.number != 0 {
        return out.refused(c.number, c.line, c.column);
    }
    out.put(b"rows");
    out.field(c.rows);
    out.crc_field(crc_of_rows(file, o.names, c.rows, column));
}
