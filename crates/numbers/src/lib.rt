// The text of a number: its size, how long it is, and a number or a digit set at the right of a cell of lent bytes, spaces to the left.
// Every call takes every input: where the text has no room, or is none, not one byte is written.

#![tactic(auto)]

ghost use Rattle.std.specs.Prelude.{◌≡◌};
ghost use Rattle.numbers.specs.Texts.{size, text_length};
ghost use Rattle.numbers.specs.Patches.{number_set, digit_set};

use line_bytes::Span;
use line_bytes::limits::{MOST_DECIMALS, ONE};

mod lengths;
mod puts;

const LARGEST_DIGIT: u64 = 9;

// The size of a number, the least one's too, which has no positive counterpart.
pub fn size_of(m: i64) -> u64
    ensures { result ≡ size m }
{
    m.unsigned_abs()
}

// The length of the text of a number by its sign and size; 0 above 6 decimals, where it has none.
pub fn text_length(minus: bool, size: u64, decimals: u64) -> usize
    ensures { result ≡ text_length minus size decimals }
{
    if MOST_DECIMALS < decimals {
        return 0;
    }
    lengths::sign_length(minus)
        + lengths::digit_count(size / ONE)
        + lengths::fraction_length(decimals)
}

// Sets a number in its cell.
pub fn set_number(file: &mut [u8], cell: Span, minus: bool, size: u64, decimals: u64)
    ensures { file.new ≡ number_set file.old cell minus size decimals }
{
    if MOST_DECIMALS < decimals
        || !lengths::has_room(file.len(), cell, text_length(minus, size, decimals))
    {
        return;
    }
    let start = puts::put_text(file, cell.start + cell.len, minus, size, decimals);
    puts::clear(file, cell.start, start);
}

// Sets a digit in its cell.
pub fn set_digit(file: &mut [u8], cell: Span, digit: u64)
    ensures { file.new ≡ digit_set file.old cell digit }
{
    if LARGEST_DIGIT < digit || !lengths::has_room(file.len(), cell, 1) {
        return;
    }
    let place = puts::put_byte(file, cell.start + cell.len, b'0' + (digit as u8));
    puts::clear(file, cell.start, place);
}
