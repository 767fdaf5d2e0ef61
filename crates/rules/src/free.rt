// The lines that rules 1 to 4 alone bind: comment lines, and those after END_DATA; and how a line's broken rule becomes a file's refusal.
ghost use Rattle.std.specs.Prelude.{◌≡◌, ◌+◌, ◌^◌, ◌≤◌, length};
ghost use Rattle.format.specs.Inner.Lines.{line_of};
ghost use Rattle.rules.specs.Inner.Free.{due, on_line, after_line, FreeRead};

use format::{BrokenRule, Refusal};
use lines::line_at;
use text::refusals;

// The line of that number, which starts at `at`.
#[derive(Clone, Copy)]
pub struct LineStart {
    pub at: usize,
    pub line: u64,
}

// What was read of the line of that number, or the refusal for the rule that it breaks.
pub fn on_line<T: Drop>(read: Result<T, BrokenRule>, line: u64) -> Result<T, Refusal>
    ensures { result ≡ on_line read line }
{
    read.map_err(|b| b.on(line))
}

// The refusal for a line that is due where the file ends.
pub fn line_due(line: u64) -> Refusal
    ensures { result ≡ due line }
{
    Refusal {
        number: refusals::LINE_DUE,
        line,
        column: 1,
    }
}

// The line after the one at `from`, which is held to rules 1 to 4 and, where `control` says so, to rule 5.
pub fn line_after(s: &[u8], from: LineStart, control: bool) -> Result<LineStart, Refusal>
    requires { from.line ≤ from.at + 2 ^ 20 }
    ensures { result ≡ after_line (line_of control s.now from.at) from.line }
{
    let e = on_line(line_at(s, from.at, control), from.line)?;
    Ok(LineStart {
        at: e + 1,
        line: from.line + 1,
    })
}

// Comment lines, up to the first line that is none; or all lines up to the end of the file.
#[derive(Clone, Copy, PartialEq, Eq)]
pub enum FreeLines {
    Comments,
    Last,
}

// The line after the lines from `from` on that rules 1 to 4 alone bind. A line's number passes its place by little more than the million data lines at the most.
pub fn free_lines(s: &[u8], from: LineStart, lines: FreeLines) -> Result<LineStart, Refusal>
    requires { (from.at ≤ length s.now) × (from.line ≤ from.at + 2 ^ 20) }
    ensures { FreeRead lines s.now from result }
{
    let mut next = from;
    // By hand: where a line ends is known only once it is read.
    while next.at < s.len() && (lines == FreeLines::Last || s[next.at] == b'#') {
        next = line_after(s, next, false)?;
    }
    Ok(next)
}
