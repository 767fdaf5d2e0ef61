// A cell judged by its kind, in one pass.
ghost use Rattle.std.specs.Prelude.{◌≡◌, ◌∷◌, ◌≤◌, ◌<◌};
ghost use Rattle.line_bytes.specs.Cells.{cell_end, cell_at};
ghost use Rattle.line_bytes.specs.Spaces.{trim};
ghost use Rattle.verdicts.specs.Kinds.{kind_of};
ghost use Rattle.verdicts.specs.Verdicts.{blank};
ghost use Rattle.verdicts.specs.Judge.{unless_blank, judged_of, in_flags, whole_of, date_of, clock_of, time_of, judge as judge_kind};
ghost use Rattle.cells.specs.Inner.Runs.{Begun, body};

use crate::scans::Line;
use line_bytes::{kinds, refusals};
use verdicts::Judged;
use verdicts::dates::is_date;
use verdicts::ranges::top;

// The largest cast.
const MOST_CASTNO: u64 = 999;

// A blank cell, which ends at a.
fn blank(a: usize) -> Judged
    ensures { result ≡ judged_of a blank }
{
    Judged::refused(a, refusals::BLANK)
}

impl<'a> Line<'a> {
    // The cell at i by its kind.
    pub fn judged(self, i: usize, kind: u8) -> Judged
        requires { i ≤ self.end }
        ensures { result ≡ judged_of (cell_end self.entry.separator self.entry.bytes.now i) (judge_kind (kind_of kind) (cell_at self.entry.separator self.entry.bytes.now i)) }
    {
        if kind < kinds::FLAG {
            self.decimal_cell(i, kind)
        } else if kind < kinds::EXPOCODE {
            self.flag_cell(i, kind)
        } else if kind == kinds::CASTNO {
            self.whole_cell(i, 9).ranged(MOST_CASTNO)
        } else {
            self.other_cell(i, kind)
        }
    }

    // A decimal. It and a flag look for their spaces and their blank themselves: where all kinds share that loop the check takes 1.27 times the instructions.
    fn decimal_cell(self, i: usize, kind: u8) -> Judged
        requires { (i ≤ self.end) × (kind < 4) }
        ensures { result ≡ judged_of (cell_end self.entry.separator self.entry.bytes.now i) (judge_kind (kind_of kind) (cell_at self.entry.separator self.entry.bytes.now i)) }
    {
        let a = self.spaces(i);
        if self.ends(a) {
            blank(a)
        } else {
            self.decimal(a).ranged(top(kind))
        }
    }

    // A flag.
    fn flag_cell(self, i: usize, kind: u8) -> Judged
        requires { (i ≤ self.end) × (4 ≤ kind) × (kind < 6) }
        ensures { result ≡ judged_of (cell_end self.entry.separator self.entry.bytes.now i) (judge_kind (kind_of kind) (cell_at self.entry.separator self.entry.bytes.now i)) }
    {
        let a = self.spaces(i);
        if self.ends(a) {
            blank(a)
        } else {
            self.flag(a, kind == kinds::CTD_FLAG)
        }
    }

    // A cell of another kind: its spaces, and what stands after them.
    fn other_cell(self, i: usize, kind: u8) -> Judged
        requires { (i ≤ self.end) × (6 ≤ kind) × (kind ≡ 8 → ⊥) }
        ensures { result ≡ judged_of (cell_end self.entry.separator self.entry.bytes.now i) (judge_kind (kind_of kind) (cell_at self.entry.separator self.entry.bytes.now i)) }
    {
        let a = self.spaces(i);
        if self.ends(a) & (kind < kinds::FREE) {
            return blank(a);
        }
        match kind {
            kinds::EXPOCODE..=kinds::STNNBR => self.close(self.word_end(a), false, 0, 0),
            kinds::DATE => self.date(a),
            kinds::TIME => self.time(a),
            _ => Judged {
                at: self.text_end(a),
                number: 0,
                minus: false,
                size: 0,
                decimals: 0,
            },
        }
    }

    // The cell at i, a whole number of at most `most` digits.
    pub fn whole_cell(self, i: usize, most: usize) -> Judged
        requires { (i ≤ self.end) × (most ≤ 9) }
        ensures { result ≡ judged_of (cell_end self.entry.separator self.entry.bytes.now i) (unless_blank (whole_of most) (trim (cell_at self.entry.separator self.entry.bytes.now i))) }
    {
        let a = self.spaces(i);
        if self.ends(a) {
            blank(a)
        } else {
            self.whole_number(a, most)
        }
    }

    fn flag(self, a: usize, ctd: bool) -> Judged
        requires { Begun self.separator self.bytes.now a self.end }
        ensures { result ≡ judged_of (cell_end self.entry.separator self.entry.bytes.now a) (in_flags ctd (whole_of 1 (body self.entry.separator self.entry.bytes.now a))) }
    {
        let b = self.bytes[a];
        if (b < b'0') | (b'9' < b) {
            self.wrong(a)
        } else {
            let c = self.close(a + 1, false, (b - b'0') as u64, 0);
            c.within(!((b == b'0') | (ctd & (b == b'8'))))
        }
    }

    fn whole_number(self, a: usize, most: usize) -> Judged
        requires { Begun self.separator self.bytes.now a self.end × (most ≤ 9) }
        ensures { result ≡ judged_of (cell_end self.entry.separator self.entry.bytes.now a) (whole_of most (body self.entry.separator self.entry.bytes.now a)) }
    {
        let w = self.digits(a, a + 10, 0);
        let q = w.at;
        if most < q - a {
            self.wrong(q)
        } else if q == a {
            self.wrong(q)
        } else {
            self.close(q, false, w.v, 0)
        }
    }

    fn date(self, a: usize) -> Judged
        requires { a ≤ self.end }
        ensures { result ≡ judged_of (cell_end self.entry.separator self.entry.bytes.now a) (date_of (body self.entry.separator self.entry.bytes.now a)) }
    {
        let w = self.digits(a, a + 9, 0);
        let q = w.at;
        if q - a != 8 {
            self.wrong(q)
        } else {
            self.close(q, false, w.v, 0).within(is_date(w.v))
        }
    }

    // A time of day, or -999.
    fn time(self, a: usize) -> Judged
        requires { Begun self.separator self.bytes.now a self.end }
        ensures { result ≡ judged_of (cell_end self.entry.separator self.entry.bytes.now a) (time_of (body self.entry.separator self.entry.bytes.now a)) }
    {
        if self.bytes[a] == b'-' {
            self.nines(a + 1)
        } else {
            self.clock(a)
        }
    }

    // The rest of -999 after its sign.
    fn nines(self, p: usize) -> Judged
        requires { p ≤ self.end }
        ensures { result ≡ judged_of (cell_end self.entry.separator self.entry.bytes.now p) (time_of (45 ∷ body self.entry.separator self.entry.bytes.now p)) }
    {
        if self.bytes[p] != b'9' {
            self.wrong(p)
        } else if self.bytes[p + 1] != b'9' {
            self.wrong(p)
        } else if self.bytes[p + 2] != b'9' {
            self.wrong(p)
        } else {
            self.close(p + 3, true, 999, 0)
        }
    }

    fn clock(self, a: usize) -> Judged
        requires { a ≤ self.end }
        ensures { result ≡ judged_of (cell_end self.entry.separator self.entry.bytes.now a) (clock_of (body self.entry.separator self.entry.bytes.now a)) }
    {
        let w = self.digits(a, a + 5, 0);
        let q = w.at;
        let v = w.v;
        if q - a != 4 {
            self.wrong(q)
        } else {
            self.close(q, false, v, 0)
                .within((v / 100 <= 23) & (v % 100 <= 59))
        }
    }
}
