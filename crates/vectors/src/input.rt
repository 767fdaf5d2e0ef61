// Standard input, read in large pieces.
use std::io;
use std::io::Read;
use std::ops::Range;

// A reader, the piece that was read last, and which of its bytes are not taken yet. By hand: std's BufReader has its piece on the heap.
#[derive(Drop)]
pub struct Input<'a, R: Read> {
    from: R,
    buffer: &'a mut [u8],
    left: Range<usize>,
}

impl<'a, R: Read> Input<'a, R> {
    pub fn new(from: R, buffer: &'a mut [u8]) -> Input<'a, R> {
        Input {
            from,
            buffer,
            left: 0..0,
        }
    }

    // The next byte, if the input has not ended.
    fn next_byte(&mut self) -> io::Result<Option<u8>> {
        if self.left.is_empty() {
            let got = self.from.read(self.buffer)?;
            self.left = 0..got;
        }
        let Some(at) = self.left.next() else {
            return Ok(None);
        };
        Ok(self.buffer.get(at).copied())
    }

    // Reads a line without its line feed, as far as there is room for it; answers its length, 0 at the end of the input.
    pub fn read_line(&mut self, line: &mut [u8]) -> io::Result<usize> {
        for (n, to) in line.iter_mut().enumerate() {
            match self.next_byte()? {
                None => return Ok(0),
                Some(b'\n') => return Ok(n),
                Some(b) => *to = b,
            }
        }
        Ok(line.len())
    }

    // Reads the bytes of a block and the line feed after them, as the first of the room where it has so much; not all: the input ended before.
    pub fn read_block(&mut self, length: usize, room: &mut [u8]) -> io::Result<bool> {
        for at in 0..length {
            let Some(b) = self.next_byte()? else {
                return Ok(false);
            };
            if length <= room.len() {
                room[at] = b;
            }
        }
        Ok(self.next_byte()? == Some(b'\n'))
    }
}
