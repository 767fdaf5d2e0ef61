// The data lines, one after the other.
ghost use Rattle.std.specs.Prelude.{◌≡◌, ◌+◌, ◌≤◌, ◌<◌, length};
ghost use Rattle.format.specs.Rows.{is_end_data};
ghost use Rattle.rules.specs.Inner.Data.{DataHeld, RowDue, RowMore, DataRead};

use crate::free::{LineStart, line_due, on_line};
use format::{BrokenRule, Refusal};
use lines::line_at;
use rows::{NO_KEYS, read_row, same_keys};
use text::{Keys, refusals};

// The most data lines.
const MOST_ROWS: u64 = 1000000;

// The data lines read so far, the next line starting at `at`: how many, the profiles that begin in them, their missing readings, and the keys of the last.
#[derive(Clone, Copy)]
pub struct Data {
    pub at: usize,
    pub rows: u64,
    pub profiles: u64,
    pub missing: u64,
    pub last: Keys,
}

fn is_end_data(line: &[u8]) -> bool
    ensures { result ≡ is_end_data line.now }
{
    text::same(line, b"END_DATA")
}

// Adds a row: the line from d.at to its line feed at e.
fn add_row<'a>(s: &'a [u8], d: &mut Data, e: usize, kinds: &'a [u8]) -> Result<(), BrokenRule>
    requires { DataHeld d.old × RowDue s.now d.old e × (0 < length kinds.now) × (length kinds.now ≤ 256) }
    ensures { RowMore s.now kinds.now d.old d.new result }
{
    if d.rows == MOST_ROWS {
        return Err(BrokenRule {
            number: refusals::TOO_MANY_DATA_LINES,
            column: 1,
        });
    }
    let r = read_row(s, d.at, e, kinds)?;
    let same_profile = 0 < d.rows && same_keys(s, d.last, r.keys);
    d.at = e + 1;
    d.rows += 1;
    d.profiles += u64::from(!same_profile);
    d.missing += r.missing;
    d.last = r.keys;
    Ok(())
}

// The data lines from `from` on, up to END_DATA or the first broken rule.
pub fn read_data<'a>(s: &'a [u8], from: LineStart, kinds: &'a [u8]) -> Result<Data, Refusal>
    requires { (from.at ≤ length s.now) × (from.line ≤ from.at + 2) × (0 < length kinds.now) × (length kinds.now ≤ 256) }
    ensures { DataRead s.now kinds.now from result }
{
    let mut d = Data {
        at: from.at,
        rows: 0,
        profiles: 0,
        missing: 0,
        last: NO_KEYS,
    };
    // By hand: where a line ends is known only once it is read.
    while d.at < s.len() {
        let line = from.line + d.rows;
        let e = on_line(line_at(s, d.at, true), line)?;
        if is_end_data(&s[d.at..e]) {
            if d.rows == 0 {
                return Err(Refusal {
                    number: refusals::NO_DATA_LINE,
                    line,
                    column: 1,
                });
            }
            return Ok(Data { at: e + 1, ..d });
        }
        on_line(add_row(s, &mut d, e, kinds), line)?;
    }
    Err(line_due(from.line + d.rows))
}
