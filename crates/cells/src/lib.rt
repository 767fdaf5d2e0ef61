// The cells of a line, each judged by its kind in one pass from the place where it starts.
// A cell goes on from a place of the lent bytes to a separator or a line feed; the caller says where a line feed stands, and every call sees to that itself.

#![tactic(auto)]

ghost use Rattle.std.specs.Prelude.{◌≡◌};
ghost use Rattle.verdicts.specs.Judge.{judged_at, whole_at};
ghost use Rattle.verdicts.specs.Rows.{cells_at};

use line_bytes::refusals;
use scans::Line;
use verdicts::{CellsRead, Judged, stops};

mod decimals;
mod judging;
mod rows;
mod scans;

// The cells from i on, one for each kind, up to the first refused one or the line feed, which stands at e.
pub fn judge_cells<'a>(s: &'a [u8], i: usize, e: usize, separator: u8, kinds: &'a [u8]) -> CellsRead
    ensures { result ≡ cells_at kinds.now separator s.now i e }
{
    if stops(s, i, e, separator) {
        let line = Line {
            bytes: s,
            end: e,
            separator,
        };
        line.cells(i, kinds)
    } else {
        CellsRead::none(i)
    }
}

// The cell that starts at i, by its kind; a line feed stands at e.
pub fn judge(s: &[u8], i: usize, e: usize, separator: u8, kind: u8) -> Judged
    ensures { result ≡ judged_at kind separator s.now i e }
{
    let r = judge_cells(s, i, e, separator, &[kind]);
    Judged {
        at: r.at,
        number: r.number,
        minus: r.minus,
        size: r.size,
        decimals: r.decimals,
    }
}

// The whole number of at most `most` digits in the cell that starts at i; a line feed stands at e.
pub fn whole(s: &[u8], i: usize, e: usize, separator: u8, most: usize) -> Judged
    ensures { result ≡ whole_at most separator s.now i e }
{
    if (most <= 9) & stops(s, i, e, separator) {
        let line = Line {
            bytes: s,
            end: e,
            separator,
        };
        line.whole_cell(i, most)
    } else {
        Judged::refused(i, refusals::NOT_OF_ITS_KIND)
    }
}
