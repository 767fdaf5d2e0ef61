// The bytes of a file, read from where it comes.
ghost use Rattle.std.specs.Prelude.{◌<◌, ◌≤◌, length, take, IfOk};
ghost use Rattle.std.specs.Io.KnownBytes.{Consumes, IsAtEnd};

use std::io;
use std::io::Read;

// Fills the room from a reader and answers how many bytes were read: the next ones that the reader had, and fewer than there is room for only at their end.
pub fn read_input<R: Read>(from: &mut R, room: &mut [u8]) -> io::Result<usize>
    ensures within { IfOk result (λ n. n ≤ length room.new) }
    ensures bytes { IfOk result (λ n. Consumes (R.remaining from.old) (R.remaining from.new) (take n room.new)) }
    ensures end { IfOk result (λ n. n < length room.new → IsAtEnd (R.remaining from.new)) }
{
    // By hand: read_exact gives no count where the input ends first, and read_to_end fills a Vec, on the heap.
    let mut n = 0;
    while n < room.len() {
        let got = from.read(&mut room[n..])?;
        if got == 0 {
            return Ok(n);
        }
        n += got;
    }
    Ok(n)
}
