// Answers the requests on standard input, one line each: check, cell, decimal, flag, profile, correct, line, report; open, named, name, unit, header, station, values,
// flags, rows, column; walk. A request is a line with its numbers, then a block of bytes and a line feed, of a file or a list line; named and station have a second one, the
// name. The last numbers of the line are the lengths of the blocks.

#![tactic(auto)]

use crate::answers::answer;
use crate::input::Input;
use crate::named::answer_with_name;
use crate::puts::Page;
use crate::request::{Lengths, lengths_in};
use report_text::PAGE_BYTES;
use std::io;
use std::io::{Read, Write};

mod answers;
mod by_place;
mod crc;
mod input;
mod named;
mod puts;
mod request;
mod tables;
mod walks;

// The most requests that are answered.
const MOST_REQUESTS: u64 = 1099511627776;

// Takes the blocks of a request, a second one behind the first; not all: the input ended before.
fn read_blocks<R: Read>(
    input: &mut Input<R>,
    lengths: Lengths,
    file: &mut [u8],
) -> io::Result<bool> {
    if !input.read_block(lengths.file, file)? {
        return Ok(false);
    }
    let Some(name) = lengths.name else {
        return Ok(true);
    };
    let start = lengths.file.min(file.len());
    input.read_block(name, &mut file[start..])
}

// Puts the answer to a request whose blocks were taken.
fn put_answer(line: &[u8], lengths: Lengths, file: &mut [u8], page: &mut [u8], out: &mut Page) {
    if file.len() < lengths.file {
        return out.put(b"too long");
    }
    let (file, blocks) = file.split_at_mut(lengths.file);
    let Some(length) = lengths.name else {
        return answer(line, file, page, out);
    };
    match blocks.get(..length) {
        Some(name) => answer_with_name(line, file, name, out),
        None => out.put(b"too long"),
    }
}

// Reads one request and puts its answer into the output, which is written out where it has no room; not: the input has ended.
fn serve<R: Read, W: Write>(
    input: &mut Input<R>,
    output: &mut W,
    file: &mut [u8],
    page: &mut [u8],
    out: &mut Page,
) -> io::Result<bool> {
    // Zeros stand behind the line, so that a word which no space ends is no request's.
    let mut line = [0u8; 256];
    if input.read_line(&mut line)? == 0 {
        return Ok(false);
    }
    let lengths = lengths_in(&line);
    if !read_blocks(input, lengths, file)? {
        return Ok(false);
    }
    if !out.has_room() {
        output.write_all(out.text())?;
        out.clear();
    }
    put_answer(&line, lengths, file, page, out);
    out.put(b"\n");
    Ok(true)
}

fn main(rt: HostRuntime) -> io::Result<()> {
    let mut output = io::writer(&rt);
    let mut buffer = [0u8; 65536];
    let mut input = Input::new(rt.reader(), &mut buffer);
    let mut file = [0u8; 131072];
    let mut page = [0u8; PAGE_BYTES];
    let mut room = [0u8; 65536];
    let mut out = Page::new(&mut room);
    for _ in 0..MOST_REQUESTS {
        if !serve(&mut input, &mut output, &mut file, &mut page, &mut out)? {
            break;
        }
    }
    output.write_all(out.text())
}
