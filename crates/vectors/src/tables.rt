// Whole columns, written into tables of so many entries as the request says; each entry is 77 before the call. The answer ends with the CRC-32 of the tables.
ghost use Rattle.std.specs.Prelude.{◌≤◌};

use crate::crc::{Crc, crc_of};
use crate::puts::{Page, bits_of};
use crate::request::number_in;
use whole_columns::ColumnRead;

// The most entries of a table.
const MOST_ENTRIES: usize = 4096;

// The entries of a table, the number in word k.
fn entries_in(line: &[u8], k: usize) -> usize
    ensures { result ≤ 4096 }
{
    (number_in(line, k) as usize).min(MOST_ENTRIES)
}

// The rows after a word, or the refusal; then the CRC-32.
fn put_column_read(out: &mut Page, word: &[u8], r: ColumnRead, crc: u32) {
    if r.number == 0 {
        out.put(word);
        out.field(r.rows);
    } else {
        out.refused(r.number, r.line, r.column);
    }
    out.crc_field(crc);
}

pub fn answer_values(line: &[u8], file: &[u8], out: &mut Page) {
    let mut cases = [77u8; MOST_ENTRIES];
    let mut millionths = [77i64; MOST_ENTRIES];
    let mut values = [77.0f64; MOST_ENTRIES];
    let cases = &mut cases[..entries_in(line, 2)];
    let millionths = &mut millionths[..entries_in(line, 3)];
    let values = &mut values[..entries_in(line, 4)];
    let r = whole_columns::column_values(file, number_in(line, 1), cases, millionths, values);
    let mut crc = Crc::new();
    crc.bytes(cases);
    for n in millionths.iter() {
        crc.bytes(&n.to_le_bytes());
    }
    for v in values.iter() {
        crc.bytes(&bits_of(*v).to_le_bytes());
    }
    put_column_read(out, b"values", r, crc.value());
}

pub fn answer_flags(line: &[u8], file: &[u8], out: &mut Page) {
    let mut flags = [77u8; MOST_ENTRIES];
    let flags = &mut flags[..entries_in(line, 2)];
    let r = whole_columns::column_flags(file, number_in(line, 1), flags);
    put_column_read(out, b"flags", r, crc_of(flags));
}
