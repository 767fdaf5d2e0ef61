// The header lines of a CTD file, one after the other.
ghost use Rattle.std.specs.Prelude.{◌≡◌, ◌+◌, ◌≤◌, ◌<◌, length, get_or};
ghost use Rattle.rules.specs.Inner.Heads.{Begun, HeadersRead};

use crate::free::{LineStart, line_due, on_line};
use format::Refusal;
use headers::{FirstHeader, MOST_HEADERS, first_header, header_line};
use names::has_station;
use text::{Span, refusals};

// The header lines after the first one, which is at `from` and says how many there are.
fn more_headers(s: &[u8], from: LineStart, first: FirstHeader) -> Result<LineStart, Refusal>
    requires { Begun s.now from first }
    ensures { HeadersRead s.now from result }
{
    let said = first.said;
    // An array with a count beside it: the library crates use no heap.
    let mut places = [Span { start: 0, len: 0 }; MOST_HEADERS];
    places[0] = Span {
        start: from.at,
        len: first.header.equals - from.at,
    };
    let mut at = first.header.end + 1;
    for count in 1..said {
        let line = from.line + count as u64;
        if s.len() <= at {
            return Err(line_due(line));
        }
        let g = on_line(header_line(s, at, &places[..count]), line)?;
        places[count] = Span {
            start: at,
            len: g.equals - at,
        };
        at = g.end + 1;
    }
    let line = from.line + said as u64;
    if !has_station(s, &places[..said]) {
        return Err(Refusal {
            number: refusals::REQUIRED_NAME_ABSENT,
            line: line - 1,
            column: 1,
        });
    }
    Ok(LineStart { at, line })
}

// The header lines from the NUMBER_HEADERS line on, which is at `from`.
pub fn read_headers(s: &[u8], from: LineStart) -> Result<LineStart, Refusal>
    requires { (from.at ≤ length s.now) × (from.line ≤ from.at + 2) × ((from.at < length s.now → get_or s.now from.at 0 ≡ 35 → ⊥)) }
    ensures { HeadersRead s.now from result }
{
    if s.len() <= from.at {
        return Err(line_due(from.line));
    }
    let h = on_line(first_header(s, from.at), from.line)?;
    more_headers(s, from, h)
}
