// UTF-8 by RFC 3629, section 4: its nine alternatives as a table, and the character that a text begins with, by the rows of any such table.

#![tactic(auto)]

ghost use Rattle.std.specs.Prelude.{◌≡◌, length};
ghost use Rattle.utf8.specs.Syntax.{to, within, alternatives, takes, character_in};
ghost use Rattle.utf8.specs.Rows.{laid, row_in, rows_in};

const MOST_RANGES: u8 = 4;

// A row for each alternative: its length, then the lowest and the highest byte of each of its ranges. The zeros of a short row are never read.
// No struct, and no Option below: table and character promise rows of nine bytes and 0 for none (laid, rows_in, character_in), as TakenExactly does.
const TABLE: [[u8; 9]; 9] = [
    [1, 0x00, 0x7f, 0, 0, 0, 0, 0, 0], // UTF8-1 = %x00-7F
    [2, 0xc2, 0xdf, 0x80, 0xbf, 0, 0, 0, 0], // UTF8-2 = %xC2-DF UTF8-tail
    [3, 0xe0, 0xe0, 0xa0, 0xbf, 0x80, 0xbf, 0, 0], // UTF8-3 = %xE0 %xA0-BF UTF8-tail /
    [3, 0xe1, 0xec, 0x80, 0xbf, 0x80, 0xbf, 0, 0], // %xE1-EC 2( UTF8-tail ) /
    [3, 0xed, 0xed, 0x80, 0x9f, 0x80, 0xbf, 0, 0], // %xED %x80-9F UTF8-tail /
    [3, 0xee, 0xef, 0x80, 0xbf, 0x80, 0xbf, 0, 0], // %xEE-EF 2( UTF8-tail )
    [4, 0xf0, 0xf0, 0x90, 0xbf, 0x80, 0xbf, 0x80, 0xbf], // UTF8-4 = %xF0 %x90-BF 2( UTF8-tail ) /
    [4, 0xf1, 0xf3, 0x80, 0xbf, 0x80, 0xbf, 0x80, 0xbf], // %xF1-F3 3( UTF8-tail ) /
    [4, 0xf4, 0xf4, 0x80, 0x8f, 0x80, 0xbf, 0x80, 0xbf], // %xF4 %x80-8F 2( UTF8-tail )
];

// The table, to be copied once and lent.
pub fn table() -> [[u8; 9]; 9]
    ensures { (rows_in result ≡ alternatives) × (result ≡ laid alternatives) }
{
    TABLE
}

// The length of the character that the text begins with, by the rows of a lent table: that of the first row that takes it, 0 where none does.
pub fn character<'a>(rows: &'a [[u8; 9]; 9], text: &'a [u8]) -> usize
    ensures { result ≡ character_in (rows_in rows.now) text.now }
{
    for row in rows {
        if takes(row, text) {
            return length_of(row);
        }
    }
    0
}

// Whether the text begins with bytes of the row's ranges, one of each.
fn takes<'a>(row: &'a [u8; 9], text: &'a [u8]) -> bool
    ensures { result ≡ takes (row_in row.now) text.now }
{
    let n = length_of(row);
    if text.len() < n {
        return false;
    }
    for j in 0..n {
        if !within(row[2 * j + 1], row[2 * j + 2], text[j]) {
            return false;
        }
    }
    true
}

// How many ranges a row has.
fn length_of(row: &[u8; 9]) -> usize
    ensures { result ≡ length (row_in row.now) }
{
    row[0].min(MOST_RANGES) as usize
}

// Whether a byte is one of a range.
fn within(low: u8, high: u8, x: u8) -> bool
    ensures { result ≡ within (to low high) x }
{
    (low..=high).contains(&x)
}
