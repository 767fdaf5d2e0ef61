// A data line: its cells judged by their columns' kinds, its missing readings, and its key beside that of another row.

#![tactic(auto)]

ghost use Rattle.std.specs.Prelude.{◌≡◌, ◌+◌, ◌≤◌, length};
ghost use Rattle.line_bytes.specs.Bytes.{equal};
ghost use Rattle.format.specs.Profiles.{same_key};
ghost use Rattle.format.specs.Inner.Rows.{span_text, key_at};
ghost use Rattle.rows.specs.Inner.RowReads.{broken_at, row_for};

use format::BrokenRule;
use grid::cell_count;
use text::{Keys, Span, refusals};

const NO_CELL: Span = Span { start: 0, len: 0 };

// The keys before the first row.
pub const NO_KEYS: Keys = Keys {
    expocode: NO_CELL,
    stnnbr: NO_CELL,
    castno: 0,
};

const WRONG_NUMBER_OF_CELLS: BrokenRule = BrokenRule {
    number: refusals::WRONG_NUMBER_OF_CELLS,
    column: 1,
};

// A row that keeps its rules: its missing readings, and where its key cells stand.
#[derive(Clone, Copy)]
pub struct Row {
    pub missing: u64,
    pub keys: Keys,
}

// The broken rule of a row whose first refused cell starts at `at`, `rest` cells being due from it on: 15 comes before the cell's.
fn broken_at(s: &[u8], start: usize, at: usize, rest: usize, number: u64) -> BrokenRule
    requires { (start ≤ at) × (at ≤ start + length s.now) }
    ensures { result ≡ broken_at s.now start at rest number }
{
    if cell_count(s, at) == rest {
        BrokenRule {
            number,
            column: (at - start) as u64 + 1,
        }
    } else {
        WRONG_NUMBER_OF_CELLS
    }
}

// The cells of the line from start to its line feed at e, by their kinds.
pub fn read_row<'a>(s: &'a [u8], start: usize, e: usize, kinds: &'a [u8]) -> Result<Row, BrokenRule>
    ensures { result ≡ row_for kinds.now s.now start e }
{
    let r = text::judge_cells(s, start, e, b',', kinds);
    if r.number != 0 {
        return Err(broken_at(s, start, r.start, kinds.len() - r.good, r.number));
    }
    if r.good != kinds.len() || s[r.at] != b'\n' {
        return Err(WRONG_NUMBER_OF_CELLS);
    }
    Ok(Row {
        missing: r.missing,
        keys: r.keys,
    })
}

// The trimmed text of a span; the empty text where it does not fit.
fn span_text(s: &[u8], x: Span) -> &[u8]
    ensures { result.now ≡ span_text s.now x }
{
    if s.len() < x.start || s.len() - x.start < x.len {
        return &s[..0];
    }
    text::trimmed(s, x.start, x.start + x.len)
}

// Whether the trimmed texts of two cells are the same; those of two empty cells, which a file without key columns has in every row, are.
// Inlined always: else the check of such a file takes 25 instructions more for a row.
#[inline(always)]
fn same_cells(s: &[u8], x: Span, y: Span) -> bool
    ensures { result ≡ equal (span_text s.now x) (span_text s.now y) }
{
    if x.len == 0 && y.len == 0 {
        return true;
    }
    text::same(span_text(s, x), span_text(s, y))
}

// Whether the keys of two rows are equal.
pub fn same_keys(s: &[u8], x: Keys, y: Keys) -> bool
    ensures { result ≡ same_key (key_at s.now x) (key_at s.now y) }
{
    x.castno == y.castno
        && same_cells(s, x.stnnbr, y.stnnbr)
        && same_cells(s, x.expocode, y.expocode)
}
