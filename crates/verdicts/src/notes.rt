// What the good cells of a line leave noted: how many readings are missing, and where the cells of its keys stand.
ghost use Rattle.std.specs.Prelude.{◌≡◌, ◌-◌};
ghost use Rattle.verdicts.specs.Rows.{no_cells, ended_at, noted};
ghost use Rattle.verdicts.specs.Inner.Notes.{share};

use crate::{CellsRead, Judged, Keys};
use line_bytes::{Span, kinds, refusals};

// The size of -999 in millionths.
const MISSING: u64 = 999000000;

// What a good cell adds to the missing readings.
pub fn missing_of(kind: u8, j: Judged) -> u64
    ensures { result ≡ share kind j }
{
    u64::from((kind == kinds::MEASURED) & j.minus & (j.size == MISSING))
}

// The part of the lent bytes from start to end.
fn part(start: usize, end: usize) -> Span
    ensures { result ≡ record { start = start; len = end - start } }
{
    Span {
        start,
        len: end.saturating_sub(start),
    }
}

impl Keys {
    pub const NONE: Keys = Keys {
        expocode: Span { start: 0, len: 0 },
        stnnbr: Span { start: 0, len: 0 },
        castno: 0,
    };

    // Notes a good cell of a key's kind, which stands from start to end: where EXPOCODE and STNNBR stand, and the number of CASTNO.
    pub fn note(&mut self, kind: u8, start: usize, end: usize, size: u64)
        ensures { self.new ≡ noted kind start end size self.old }
    {
        // Most cells have no key's kind: with one test for them the check takes fewer instructions.
        if kind < kinds::EXPOCODE {
            return;
        }
        match kind {
            kinds::EXPOCODE => self.expocode = part(start, end),
            kinds::STNNBR => self.stnnbr = part(start, end),
            kinds::CASTNO => self.castno = size,
            _ => {}
        }
    }
}

impl CellsRead {
    // Cells judged up to j, which starts at `start`.
    pub fn ended(start: usize, good: usize, missing: u64, keys: Keys, j: Judged) -> CellsRead
        ensures { result ≡ ended_at start good missing keys j }
    {
        CellsRead {
            start,
            at: j.at,
            number: j.number,
            minus: j.minus,
            size: j.size,
            decimals: j.decimals,
            good,
            missing,
            keys,
        }
    }

    // Where no cell can be judged.
    pub fn none(i: usize) -> CellsRead
        ensures { result ≡ no_cells i }
    {
        CellsRead::ended(
            i,
            0,
            0,
            Keys::NONE,
            Judged::refused(i, refusals::NOT_OF_ITS_KIND),
        )
    }
}
