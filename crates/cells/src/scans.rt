// A line whose line feed is known, and scans of it from a place on. No scan tests for the end: the line feed stops it.
// Loops by hand in spaces, text_end and word_end: a `position` would test for the end at each byte, and give an Option that is never None.
ghost use Rattle.std.specs.Prelude.{◌≡◌, ◌+◌, ◌^◌, ◌≤◌, ◌<◌, ◌||◌, true, length, get_or, eqb};
ghost use Rattle.line_bytes.specs.Bytes.{line_feed};
ghost use Rattle.line_bytes.specs.Cells.{cell_end, separates};
ghost use Rattle.cells.specs.Inner.Runs.{Spaced, Counted, Worded};

// Lent bytes with a line feed at `end`, and the byte that parts the line's cells.
#[derive(Clone, Copy)]
pub struct Line<'a> {
    pub bytes: &'a [u8],
    pub end: usize,
    pub separator: u8,
    ghost room: { end < length bytes.now },
    ghost feed: { get_or bytes.now end 0 ≡ line_feed },
    ghost parts: { separates separator ≡ true },
}

// The digits passed end at `at` and write v.
#[derive(Clone, Copy)]
pub struct DigitRun {
    pub at: usize,
    pub v: u64,
}

impl<'a> Line<'a> {
    // Whether a cell ends at p.
    pub fn ends(self, p: usize) -> bool
        requires { p ≤ self.end }
        ensures { result ≡ (eqb (get_or self.entry.bytes.now p 0) self.entry.separator || eqb (get_or self.entry.bytes.now p 0) line_feed) }
    {
        let b = self.bytes[p];
        (b == self.separator) | (b == b'\n')
    }

    // Past the spaces from i on.
    pub fn spaces(self, i: usize) -> usize
        requires { i ≤ self.end }
        ensures { Spaced self.entry.bytes.now i self.entry.end result }
    {
        let mut p = i;
        while self.bytes[p] == b' ' {
            p += 1;
        }
        p
    }

    // The digits from i on, at most up to limit, written after v0.
    pub fn digits(self, i: usize, limit: usize, v0: u64) -> DigitRun
        requires { (i ≤ self.end) × (i ≤ limit) × (limit ≤ i + 10) × (v0 < 10 ^ 9) }
        ensures { Counted self.entry.bytes.now i self.entry.end limit v0 result.at result.v }
    {
        let mut v = v0;
        for p in i..limit {
            let d = self.bytes[p];
            if (d < b'0') | (b'9' < d) {
                return DigitRun { at: p, v };
            }
            v = v * 10 + ((d - b'0') as u64);
        }
        DigitRun { at: limit, v }
    }

    // Where the cell ends that goes on at i.
    pub fn text_end(self, i: usize) -> usize
        requires { i ≤ self.end }
        ensures { (result ≡ cell_end self.entry.separator self.entry.bytes.now i) × (result ≤ self.entry.end) }
    {
        let mut p = i;
        while !self.ends(p) {
            p += 1;
        }
        p
    }

    // Where the bytes of a key text from i on end: a space, a comma, a slash, or the cell's end.
    pub fn word_end(self, i: usize) -> usize
        requires { i ≤ self.end }
        ensures { Worded self.entry.separator self.entry.bytes.now i self.entry.end result }
    {
        let mut p = i;
        loop {
            let b = self.bytes[p];
            if (b == b',') | (b == b' ') | (b == b'/') | (b == self.separator) | (b == b'\n') {
                return p;
            }
            p += 1;
        }
    }
}
