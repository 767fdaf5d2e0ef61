// The lines before the names line: line 1, the comments, and the headers of a CTD file.
ghost use Rattle.rules.specs.Inner.Top.{TopRead};

use crate::free::{FreeLines, LineStart, free_lines, on_line};
use crate::heads::read_headers;
use format::{FileKind, Refusal};
use line_one::first_line;

// The kind of a file, and where its headers and its names line start: at one place where there are no headers.
#[derive(Clone, Copy)]
pub struct Top {
    pub kind: FileKind,
    pub headers: usize,
    pub names: LineStart,
}

// The lines before the names line.
pub fn read_top(s: &[u8]) -> Result<Top, Refusal>
    ensures { TopRead s.now result }
{
    let first = on_line(first_line(s), 1)?;
    let comments = LineStart {
        at: first.at,
        line: 2,
    };
    let headers = free_lines(s, comments, FreeLines::Comments)?;
    let names = match first.kind {
        FileKind::Ctd => read_headers(s, headers)?,
        _ => headers,
    };
    Ok(Top {
        kind: first.kind,
        headers: headers.at,
        names,
    })
}
