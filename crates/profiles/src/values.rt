// The value of a name, by place: of a header, or of a column in a row.
ghost use Rattle.profiles.specs.Inner.Values.{ValueRead, NumberRead, TimeRead, HeadersStand, HeaderFound, ColumnsStand, value_in};

use columns::column_in;
use format::CastTime;
use grid::{cell_span, line_end};
use headers::equals_from;
use text::kinds;

// Where a value stands, with its spaces: a cell parted by the separator, in a line whose line feed stands at `feed`.
#[derive(Clone, Copy)]
pub struct ValueAt {
    pub separator: u8,
    pub start: usize,
    pub len: usize,
    pub feed: usize,
}

// The value of the header of that name, in the headers from `first` up to the names line: what stands after its =.
pub fn header_value<'a>(s: &'a [u8], first: usize, names: usize, name: &'a [u8]) -> Option<ValueAt>
    requires { HeadersStand s.now first names }
    ensures { HeaderFound s.now first names name.now result }
{
    // By hand: a place in the file is answered, and the lines of a split carry none.
    let mut at = first;
    while at < names {
        let e = line_end(s, at);
        let q = equals_from(s, at);
        if text::same(text::trimmed(s, at, q), name) {
            return Some(ValueAt {
                separator: b'\n',
                start: q + 1,
                len: e - (q + 1),
                feed: e,
            });
        }
        at = e + 1;
    }
    None
}

// The cell of the column of that name, in the row whose line starts at `at`.
pub fn column_value<'a>(s: &'a [u8], names: usize, at: usize, name: &'a [u8]) -> Option<ValueAt>
    requires { ColumnsStand s.now names at }
    ensures { ValueRead s.now (value_in s.now names at name.now) result }
{
    let c = column_in(s, names, name);
    if c == 0 {
        return None;
    }
    let p = cell_span(s, at, (c - 1) as usize);
    Some(ValueAt {
        separator: b',',
        start: p.start,
        len: p.len,
        feed: line_end(s, at),
    })
}

// The number that a value of a kind writes; 0 where there is none.
// A kind is a byte, and no enum: it is handed on to `judge`, which is defined for any byte.
pub fn number_in(s: &[u8], v: Option<ValueAt>, kind: u8) -> u64
    ensures { NumberRead s.now v kind result }
{
    match v {
        Some(v) => text::judge(s, v.start, v.feed, v.separator, kind).size,
        None => 0,
    }
}

// The cast time that a value gives; missing too where there is none.
pub fn time_in(s: &[u8], v: Option<ValueAt>) -> CastTime
    ensures { TimeRead s.now v result }
{
    let Some(v) = v else {
        return CastTime::Missing;
    };
    let j = text::judge(s, v.start, v.feed, v.separator, kinds::TIME);
    if j.number != 0 || j.minus {
        return CastTime::Missing;
    }
    CastTime::Given {
        hour: j.size / 100,
        minute: j.size % 100,
    }
}
