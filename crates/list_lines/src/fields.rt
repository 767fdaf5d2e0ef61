// One line of a correction list: row, column name, decimal and flag digit, parted by single tabs, with no spaces, ended by one line feed.
ghost use Rattle.std.specs.Prelude.{◌≡◌, true, cond, ◌+◌, ltb};
ghost use Rattle.line_bytes.specs.Cells.{first_piece, pieces};
ghost use Rattle.orders.specs.ListLines.{is_one_line, by_fields};

use orders::ListLine;
use text::{Span, kinds, refusals};

// What parts the fields.
const TAB: u8 = b'\t';

// The answer for a line that has not these fields.
pub const MALFORMED: ListLine = ListLine {
    number: refusals::MALFORMED_LIST_LINE,
    row: 0,
    name: Span { start: 0, len: 0 },
    millionths: 0,
    decimals: 0,
    flag: 0,
};

// Whether the last byte is the one line feed, and no byte a space.
pub fn is_one_line(line: &[u8]) -> bool
    ensures { result ≡ is_one_line line.now }
{
    match line {
        [rest @ .., b'\n'] => rest.iter().all(|b| !matches!(b, b'\n' | b' ')),
        _ => false,
    }
}

// Where the next field starts after one that ends at `at`; behind the last, the line feed at e stands for an empty one, which no rule lets pass.
fn after(at: usize, e: usize) -> usize
    ensures { result ≡ cond (ltb at e) (at + 1) at }
{
    if at < e { at + 1 } else { at }
}

// The fields of one line.
pub fn fields_of(line: &[u8]) -> ListLine
    requires { is_one_line line.now ≡ true }
    ensures { result ≡ by_fields (pieces 9 (first_piece 10 line.now)) }
{
    let e = line.len() - 1;
    let row = text::whole(line, 0, e, TAB, 7);
    let start = after(row.at, e);
    let name = text::judge(line, start, e, TAB, kinds::FREE);
    let end = name.at;
    let value = text::judge(line, after(end, e), e, TAB, kinds::MEASURED);
    let flag = text::whole(line, after(value.at, e), e, TAB, 1);
    let is_row = (row.number == 0) & (line[0] != b'0');
    let is_name = text::is_name(&line[start..end]);
    let is_good = is_row & is_name & ((value.number == 0) & (flag.number == 0));
    if !(is_good & (flag.at == e)) {
        return MALFORMED;
    }
    ListLine {
        number: 0,
        row: row.size,
        name: Span {
            start,
            len: end - start,
        },
        millionths: text::signed_size(value.minus, value.size),
        decimals: value.decimals,
        flag: flag.size,
    }
}
