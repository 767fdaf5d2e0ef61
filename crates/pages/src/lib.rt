// Texts laid out in room that the caller lends, as far as it goes; each call answers where its text ends.

#![tactic(auto)]

ghost use Rattle.std.specs.Prelude.{◌≡◌};
ghost use Rattle.pages.specs.Pages.{page, lay_byte, lay};
ghost use Rattle.numbers.specs.Texts.{whole_text};

// Puts a byte at `at`, if there is room.
fn put_byte(room: &mut [u8], at: usize, b: u8) -> usize
    ensures { page room.new result ≡ lay_byte (page room.old at) b }
{
    if at < room.len() {
        room[at] = b;
        return at + 1;
    }
    at
}

// Puts a text at `at`.
pub fn put<'a>(room: &mut [u8], at: usize, t: &'a [u8]) -> usize
    ensures { page room.new result ≡ lay (page room.old at) t.now }
{
    let mut end = at;
    for &b in t {
        end = put_byte(room, end, b);
    }
    end
}

// Puts the digits of a number at `at`.
pub fn put_number(room: &mut [u8], at: usize, n: u64) -> usize
    ensures { page room.new result ≡ lay (page room.old at) (whole_text n) }
{
    let mut digits = [0u8; 20];
    let count = io::decimal(n, &mut digits);
    put(room, at, &digits[..count])
}
