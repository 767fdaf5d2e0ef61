// The cells of a line, judged from the left by their kinds.
ghost use Rattle.std.specs.Prelude.{◌≡◌, ◌≤◌};
ghost use Rattle.line_bytes.specs.Cells.{pieces, line_at};
ghost use Rattle.verdicts.specs.Rows.{no_keys, cells_from};

use crate::scans::Line;
use verdicts::notes::missing_of;
use verdicts::{CellsRead, Keys};

impl<'a> Line<'a> {
    // The cells from i on, one for each kind, up to the first refused one or the line feed.
    pub fn cells(self, i: usize, kinds: &[u8]) -> CellsRead
        requires { i ≤ self.end }
        ensures { result ≡ cells_from i i 0 0 no_keys kinds.now (pieces self.entry.separator (line_at self.entry.bytes.now i)) }
    {
        let mut at = i;
        let mut missing: u64 = 0;
        let mut keys = Keys::NONE;
        for (k, kind) in kinds.iter().enumerate() {
            let j = self.judged(at, *kind);
            let q = j.at;
            if j.number != 0 {
                return CellsRead::ended(at, k, missing, keys, j);
            }
            missing += missing_of(*kind, j);
            keys.note(*kind, at, q, j.size);
            if (self.bytes[q] == b'\n') | (k + 1 == kinds.len()) {
                return CellsRead::ended(at, k + 1, missing, keys, j);
            }
            at = q + 1;
        }
        CellsRead::none(i)
    }
}
