// How long the parts of a number's text are, and whether a cell has room for a text.
ghost use Rattle.std.specs.Prelude.{◌≡◌, ℕ, ◌≤◌, length};
ghost use Rattle.numbers.specs.Texts.{whole_text, sign_text, fraction_text};
ghost use Rattle.numbers.specs.Patches.{has_room};

use line_bytes::Span;

// How many digits a whole number has with no needless zero: at least one.
pub fn digit_count(n: u64) -> usize
    ensures { (result ≡ length (whole_text n)) × (result ≤ 20) }
{
    match n.checked_ilog10() {
        Some(k) => (k as usize) + 1,
        None => 1,
    }
}

pub fn sign_length(minus: bool) -> usize
    ensures { (result ≡ length (sign_text minus)) × (result ≤ 1) }
{
    minus as usize
}

// The point and the decimals, if any.
pub fn fraction_length(decimals: u64) -> usize
    requires { decimals ≤ 6 }
    ensures { ((n : ℕ) → result ≡ length (fraction_text decimals n)) × (result ≤ 7) }
{
    if decimals == 0 {
        0
    } else {
        (decimals as usize) + 1
    }
}

// Whether a cell lies inside so many bytes and has room for a text of n.
pub fn has_room(bytes: usize, cell: Span, n: usize) -> bool
    ensures { result ≡ has_room bytes cell n }
{
    cell.start <= bytes && n <= cell.len && cell.len <= bytes - cell.start
}
