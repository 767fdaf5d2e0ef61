// The whole file, line after line: its table, or the first broken rule.
ghost use Rattle.std.specs.Prelude.{◌≡◌, ◌+◌, ◌^◌, ◌≤◌};
ghost use Rattle.rules.specs.Inner.Table.{due_line, FileRead};

use crate::data::read_data;
use crate::free::{FreeLines, LineStart, free_lines, line_after, line_due, on_line};
use crate::top::read_top;
use columns::read_columns;
use format::{FileKind, Refusal};
use grid::cell_count;
use text::refusals;

// What the check finds out about an accepted file. The data lines start at `data`, the names line at `names`, the headers at `headers`, which is `names` where
// there are none.
#[derive(Clone, Copy)]
pub struct FileTable {
    pub kind: FileKind,
    pub columns: usize,
    pub rows: u64,
    pub profiles: u64,
    pub missing: u64,
    pub headers: usize,
    pub names: usize,
    pub data: usize,
}

// The line after one that is due, rules 1 to 5 of which are looked at.
fn due_line(s: &[u8], from: LineStart) -> Result<LineStart, Refusal>
    requires { from.line ≤ from.at + 2 ^ 20 }
    ensures { result ≡ due_line s.now from }
{
    if s.len() <= from.at {
        return Err(line_due(from.line));
    }
    line_after(s, from, true)
}

// The check of a whole file.
pub fn table_of(s: &[u8]) -> Result<FileTable, Refusal>
    ensures { FileRead s.now result }
{
    let top = read_top(s)?;
    let names = top.names;
    let units = due_line(s, names)?;
    let columns = on_line(
        read_columns(s, names.at, top.kind == FileKind::Bottle),
        names.line,
    )?;
    let data = due_line(s, units)?;
    if cell_count(s, units.at) != columns.count {
        return Err(Refusal {
            number: refusals::WRONG_NUMBER_OF_CELLS,
            line: units.line,
            column: 1,
        });
    }
    let d = read_data(s, data, &columns.kinds[..columns.count])?;
    let rest = LineStart {
        at: d.at,
        line: data.line + d.rows + 1,
    };
    free_lines(s, rest, FreeLines::Last)?;
    Ok(FileTable {
        kind: top.kind,
        columns: columns.count,
        rows: d.rows,
        profiles: d.profiles,
        missing: d.missing,
        headers: top.headers,
        names: names.at,
        data: data.at,
    })
}
