// Answers in words and numbers, put one after another into lent room, as far as that goes.
use exchange::{CellPlace, Checked, FileKind, Flagged};
use text::{Reading, Span};

// Room for the longest answer, and for the three of a row.
pub const MOST_ANSWER: usize = 512;

// The room, and where the next text is put.
#[derive(Drop)]
pub struct Page<'a> {
    room: &'a mut [u8],
    at: usize,
}

impl<'a> Page<'a> {
    pub fn new(room: &'a mut [u8]) -> Page<'a> {
        Page { room, at: 0 }
    }

    // What was put.
    pub fn text(&self) -> &[u8] {
        &self.room[..self.at.min(self.room.len())]
    }

    pub fn has_room(&self) -> bool {
        MOST_ANSWER <= self.room.len().saturating_sub(self.at)
    }

    pub fn clear(&mut self) {
        self.at = 0;
    }

    pub fn put(&mut self, t: &[u8]) {
        self.at = pages::put(self.room, self.at, t);
    }

    pub fn number(&mut self, n: u64) {
        self.at = pages::put_number(self.room, self.at, n);
    }

    // A field is a space, then a number.
    pub fn field(&mut self, n: u64) {
        self.put(b" ");
        self.number(n);
    }

    pub fn signed_field(&mut self, n: i64) {
        self.put(b" ");
        if n < 0 {
            self.put(b"-");
        }
        self.number(n.unsigned_abs());
    }

    // So many hexadecimal digits.
    pub fn hex_field(&mut self, n: u64, width: usize) {
        let mut digits = [0u8; 16];
        let count = io::hex(n, width, &mut digits);
        self.put(b" ");
        self.put(&digits[..count]);
    }

    pub fn crc_field(&mut self, crc: u32) {
        self.hex_field(crc as u64, 8);
    }

    pub fn refused(&mut self, number: u64, line: u64, column: u64) {
        self.put(b"refused");
        self.field(number);
        self.field(line);
        self.field(column);
    }

    // The kind and the counts of a file that was accepted.
    pub fn counts(&mut self, c: Checked) {
        match c.kind {
            FileKind::Bottle => self.put(b" BOTTLE"),
            FileKind::Ctd => self.put(b" CTD"),
            FileKind::Unknown => {}
        }
        self.field(c.columns);
        self.field(c.rows);
        self.field(c.profiles);
        self.field(c.missing);
    }

    pub fn span(&mut self, place: Span) {
        self.field(place.start as u64);
        self.field(place.len as u64);
    }

    // Where a trimmed text stands, after a word; or the refusal.
    pub fn place(&mut self, word: &[u8], p: CellPlace) {
        if p.number != 0 {
            return self.refused(p.number, p.line, p.column);
        }
        self.put(word);
        self.span(p.place);
    }

    pub fn reading(&mut self, r: Reading) {
        match r {
            Reading::Present { millionths, value } => {
                self.put(b"present");
                self.signed_field(millionths);
                self.hex_field(bits_of(value), 16);
            }
            Reading::Missing => self.put(b"missing"),
            Reading::Refused {
                number,
                line,
                column,
            } => self.refused(number, line, column),
        }
    }

    pub fn flagged(&mut self, f: Flagged) {
        if f.number != 0 {
            return self.refused(f.number, f.line, f.column);
        }
        self.put(b"flag");
        self.field(f.flag);
    }
}

// The bits of a double; no reading is a NaN.
pub fn bits_of(value: f64) -> u64 {
    if value.is_nan() { 0 } else { value.to_bits() }
}
