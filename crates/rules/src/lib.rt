// The check: the run over a file's lines, place by place.

#![tactic(auto)]

ghost use Rattle.std.specs.Prelude.{◌≡◌};
ghost use Rattle.format.specs.Answers.{checked_of};
ghost use Rattle.format.specs.Opened.{opened_of};

use format::{Checked, FileKind, Opened};

mod data;
mod free;
mod heads;
mod table;
mod top;

// Opens a file: checks it, and says where its headers, its names line and its first data line start.
// A record of its own and no Result: `opened_of` and `checked_of` speak of it, and the C interface hands its numbers on.
pub fn open_file(file: &[u8]) -> Opened
    ensures { result ≡ opened_of file.now }
{
    match table::table_of(file) {
        Ok(t) => Opened {
            checked: Checked {
                number: 0,
                line: 0,
                column: 0,
                kind: t.kind,
                columns: t.columns as u64,
                rows: t.rows,
                profiles: match t.kind {
                    FileKind::Ctd => 1,
                    _ => t.profiles,
                },
                missing: t.missing,
            },
            headers: t.headers,
            names: t.names,
            first: t.data,
        },
        Err(r) => Opened {
            checked: Checked {
                number: r.number,
                line: r.line,
                column: r.column,
                kind: FileKind::Unknown,
                columns: 0,
                rows: 0,
                profiles: 0,
                missing: 0,
            },
            headers: 0,
            names: 0,
            first: 0,
        },
    }
}

// Checks a file.
pub fn check(file: &[u8]) -> Checked
    ensures { result ≡ checked_of file.now }
{
    open_file(file).checked
}
