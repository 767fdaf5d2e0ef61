// The text of the report on a file, laid out in room that the caller lends.

#![tactic(auto)]

ghost use Rattle.std.specs.Prelude.{◌≡◌, ◌++◌, length, take, drop, OnOk, IfSome};
ghost use Rattle.std.specs.Io.KnownBytes.{Consumes, Appends};
ghost use Rattle.io.specs.Counts.{IsPrefixLen};
ghost use Rattle.pages.specs.Pages.{page, lay};
ghost use Rattle.report_text.specs.Report.{report_of};
ghost use Rattle.report_text.specs.Promises.{input_bytes, ReadSays};

use crate::report_lines::{put_accepted, put_profiles, put_refused};
use pages::put;
use std::io;
use std::io::{Read, Write};

mod input;
mod report_lines;

pub use input::read_input;

// The most bytes of a file that is reported on.
const MOST_BYTES: usize = 65536;

// The most bytes of a file that are read: one more, so that a longer file shows.
pub const INPUT_BYTES: usize = 65537;

// A page that every report fits.
pub const PAGE_BYTES: usize = 163840;

// Puts the report on a file at the start of the room, as far as that goes.
pub fn report(file: &[u8], room: &mut [u8]) -> usize
    ensures { page room.new result ≡ lay (page room.old 0) (report_of file.now) }
{
    if MOST_BYTES < file.len() {
        return put(room, 0, b"too long\n");
    }
    let c = exchange::check(file);
    if c.number != 0 {
        return put_refused(room, c);
    }
    let at = put_accepted(room, c);
    put_profiles(file, c.profiles, room, at)
}

// The report on the first n bytes of the input; on all of them where there are no more than n.
fn report_first(input: &[u8], n: usize, room: &mut [u8]) -> usize
    ensures { page room.new result ≡ lay (page room.old 0) (report_of (take n input.now)) }
{
    report(&input[..n.min(input.len())], room)
}

// Puts the report on the first n bytes of the input at the start of the page and answers its length. Where they were read from a file, it is the report on that
// file, however long that is. So many bytes of the page can be lent on (the last clause, which follows from the others). Arrays, and n beside one: read_says rests on
// the input's size, and value on the page's, which slices would not say.
pub fn report_page(input: &[u8; INPUT_BYTES], n: usize, room: &mut [u8; PAGE_BYTES]) -> usize
    ensures value { result ≡ length (report_of (take n input.now)) }
    ensures room_after { room.new ≡ report_of (take n input.now) ++ drop result room.old }
    ensures read_says { ReadSays input.now n }
    ensures prefix_len { IsPrefixLen result room.new }
{
    report_first(input, n, room)
}

// The report program: reads a file, as far as its report asks, and writes the report on the whole of it.
pub fn report_input<R: Read, W: Write>(from: &mut R, to: &mut W) -> io::Result<()>
    ensures reads { OnOk result (IfSome (R.remaining from.old) (λ f. Consumes (R.remaining from.old) (R.remaining from.new) (take input_bytes f))) }
    ensures writes { OnOk result (IfSome (R.remaining from.old) (λ f. Appends (W.contents to.old) (W.contents to.new) (report_of f))) }
{
    let mut input = [0u8; INPUT_BYTES];
    let mut page = [0u8; PAGE_BYTES];
    let n = read_input(from, &mut input)?;
    let length = report_page(&input, n, &mut page);
    to.write_all(&page[..length])
}
