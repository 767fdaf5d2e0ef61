// A decimal in one pass: sign, digits, point, digits, spaces; and the ends that a cell of any kind has: not of its kind, closed.
ghost use Rattle.std.specs.Prelude.{◌≡◌, cond, ◌||◌, ◌+◌, ◌≤◌, ◌<◌, get_or, eqb};
ghost use Rattle.line_bytes.specs.Cells.{cell_end};
ghost use Rattle.verdicts.specs.Verdicts.{wrong, good};
ghost use Rattle.verdicts.specs.Decimals.{unsigned_of, decimal_of};
ghost use Rattle.verdicts.specs.Judge.{judged_of};
ghost use Rattle.cells.specs.Inner.Runs.{Begun, body, closing};

use crate::scans::Line;
use line_bytes::{limits, refusals};
use verdicts::{Judged, last_place};

impl<'a> Line<'a> {
    // A cell that is not of its kind; what is left of it goes on at q.
    pub fn wrong(self, q: usize) -> Judged
        requires { q ≤ self.end }
        ensures { result ≡ judged_of (cell_end self.entry.separator self.entry.bytes.now q) wrong }
    {
        Judged::refused(self.text_end(q), refusals::NOT_OF_ITS_KIND)
    }

    // The spaces after a cell's text, and its end: nothing else may be left.
    pub fn close(self, q: usize, minus: bool, size: u64, decimals: u64) -> Judged
        requires { q ≤ self.end }
        ensures { result ≡ judged_of (cell_end self.entry.separator self.entry.bytes.now q) (closing (good minus size decimals) (body self.entry.separator self.entry.bytes.now q)) }
    {
        let r = self.spaces(q);
        if self.ends(r) {
            Judged {
                at: r,
                number: 0,
                minus,
                size,
                decimals,
            }
        } else {
            self.wrong(r)
        }
    }

    // The digits and the point, after the sign.
    fn unsigned(self, p: usize, minus: bool) -> Judged
        requires { p ≤ self.end }
        ensures { result ≡ judged_of (cell_end self.entry.separator self.entry.bytes.now p) (unsigned_of minus (body self.entry.separator self.entry.bytes.now p)) }
    {
        let w = self.digits(p, p + 10, 0);
        let q = w.at;
        let v = w.v;
        if 9 < q - p {
            self.wrong(q)
        } else if self.bytes[q] != b'.' {
            if q == p {
                self.wrong(q)
            } else {
                self.close(q, minus, v * limits::ONE, 0)
            }
        } else {
            let f = self.digits(q + 1, q + 8, v);
            let r = f.at;
            let after = r - (q + 1);
            if 6 < after {
                self.wrong(r)
            } else if r - p == 1 {
                self.wrong(r)
            } else {
                self.close(r, minus, f.v * last_place(after as u64), after as u64)
            }
        }
    }

    pub fn decimal(self, a: usize) -> Judged
        requires { Begun self.separator self.bytes.now a self.end }
        ensures { result ≡ judged_of (cell_end self.entry.separator self.entry.bytes.now a) (decimal_of (body self.entry.separator self.entry.bytes.now a)) }
    {
        let b = self.bytes[a];
        self.unsigned(after_sign(a, self.end, b), b == b'-')
    }
}

fn after_sign(a: usize, e: usize, b: u8) -> usize
    requires { a < e }
    ensures { (result ≡ cond (eqb b 45 || eqb b 43) (a + 1) a) × (result ≤ e) }
{
    if (b == b'-') | (b == b'+') { a + 1 } else { a }
}
