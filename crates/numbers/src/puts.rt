// Texts put into lent bytes from the right: each function puts its text just before `end` and answers where it starts.
ghost use Rattle.std.specs.Prelude.{◌≡◌, [], ◌∷◌, ◌-◌, ◌≤◌, length, replicate};
ghost use Rattle.numbers.specs.Texts.{last_digits, whole_text, fraction_text, sign_text, text_of};
ghost use Rattle.numbers.specs.Patches.{patch};
ghost use Rattle.numbers.specs.Inner.Puts.{Room, PutBefore};

use crate::lengths::digit_count;
use line_bytes::limits::ONE;
use verdicts::last_place;

pub fn put_byte(file: &mut [u8], end: usize, b: u8) -> usize
    requires { Room file.old end (b ∷ []) }
    ensures { PutBefore file.old end (b ∷ []) file.new result }
{
    let at = end - 1;
    file[at] = b;
    at
}

// The last `count` digits of n.
fn put_digits(file: &mut [u8], end: usize, count: usize, n: u64) -> usize
    requires { Room file.old end (last_digits count n) }
    ensures { PutBefore file.old end (last_digits count n) file.new result }
{
    let start = end - count;
    let mut rest = n;
    for at in (start..end).rev() {
        file[at] = b'0' + ((rest % 10) as u8);
        rest /= 10;
    }
    start
}

// The point and the decimals, if any.
fn put_fraction(file: &mut [u8], end: usize, size: u64, decimals: u64) -> usize
    requires decimals_bound { decimals ≤ 6 }
    requires room { Room file.old end (fraction_text decimals size) }
    ensures { PutBefore file.old end (fraction_text decimals size) file.new result }
{
    if decimals == 0 {
        return end;
    }
    let last = size % ONE / last_place(decimals);
    let point = put_digits(file, end, decimals as usize, last);
    put_byte(file, point, b'.')
}

fn put_whole(file: &mut [u8], end: usize, n: u64) -> usize
    requires { Room file.old end (whole_text n) }
    ensures { PutBefore file.old end (whole_text n) file.new result }
{
    put_digits(file, end, digit_count(n), n)
}

fn put_sign(file: &mut [u8], end: usize, minus: bool) -> usize
    requires { Room file.old end (sign_text minus) }
    ensures { PutBefore file.old end (sign_text minus) file.new result }
{
    if minus {
        put_byte(file, end, b'-')
    } else {
        end
    }
}

// The text of a number, by the three values that the public calls take. `decimals ≤ 6` stays a `requires`: those calls take every number of decimals,
// so a type for at most six would be made in two of them for the three functions that need it.
pub fn put_text(file: &mut [u8], end: usize, minus: bool, size: u64, decimals: u64) -> usize
    requires decimals_bound { decimals ≤ 6 }
    requires room { Room file.old end (text_of minus size decimals) }
    ensures { PutBefore file.old end (text_of minus size decimals) file.new result }
{
    let point = put_fraction(file, end, size, decimals);
    let whole = put_whole(file, point, size / ONE);
    put_sign(file, whole, minus)
}

// Spaces from start up to `end`.
pub fn clear(file: &mut [u8], start: usize, end: usize)
    requires { (start ≤ end) × (end ≤ length file.old) }
    ensures { file.new ≡ patch file.old start (replicate (end - start) 32) }
{
    file[start..end].fill(b' ');
}
