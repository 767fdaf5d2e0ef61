// A WHP-Exchange file: the check, and the calls that read its cells, decimals, flags and profiles.

#![tactic(auto)]

ghost use Rattle.std.specs.Prelude.{◌≡◌};
ghost use Rattle.line_bytes.specs.Spaces.{IsPart};
ghost use Rattle.format.specs.Answers.{cell_of, refusal_by, asked_of, place_for, reading_for, flagged_of};
ghost use Rattle.format.specs.Located.{located_of};

use grid::no_place;
use text::{Reading, Span, kinds, refusals};

mod finding;

pub use format::{
    CastTime, CellPlace, Checked, DecimalStep, FileKind, FlagStep, Flagged, HeaderPlace, Located,
    Named, Opened, ProfileRecord,
};
pub use labels::{
    column_named, header_name, header_place, header_value, name_of, name_place, unit_of, unit_place,
};
pub use opened::{
    cell_in, column_in, decimal_in, decimal_step, flag_column, flag_in, flag_step, kind_in,
    line_after,
};
pub use profiles::{profile, station, station_place};
pub use rules::{check, open_file};

// The place of a trimmed cell.
pub fn cell_place(file: &[u8], row: u64, column: u64) -> CellPlace
    ensures { result ≡ place_for file.now row column }
{
    match finding::find_cell(file, row, column) {
        Ok(a) => CellPlace {
            number: 0,
            line: 0,
            column: 0,
            place: text::trim_span(file, a.place.start, a.place.start + a.place.len),
        },
        Err(e) => no_place(e.number, e.line, e.column),
    }
}

// The trimmed cell, a part of the file itself; refusal gets number, line and column. No Result: on refusal it is an empty part of the file, as document 01 asks.
pub fn cell<'a>(file: &'a [u8], row: u64, column: u64, refusal: &mut [u64; 3]) -> &'a [u8]
    ensures part { IsPart file.entry result (cell_of file.now row column) }
    ensures refusal_after { refusal.new ≡ refusal_by (asked_of file.now row column) }
{
    let p = cell_place(file, row, column);
    *refusal = [p.number, p.line, p.column];
    let start = p.place.start;
    let end = start + p.place.len;
    &file[start..end]
}

// The reading of a decimal column.
pub fn decimal(file: &[u8], row: u64, column: u64) -> Reading
    ensures { result ≡ reading_for file.now row column }
{
    match finding::find_cell(file, row, column) {
        Ok(a) => text::read_decimal(file, a.place.start, a.feed, b',', a.kind),
        Err(e) => Reading::Refused {
            number: e.number,
            line: e.line,
            column: e.column,
        },
    }
}

// The flag of a flag column.
pub fn flag(file: &[u8], row: u64, column: u64) -> Flagged
    ensures { result ≡ flagged_of file.now row column }
{
    match finding::find_cell(file, row, column) {
        Ok(a) if matches!(a.kind, kinds::FLAG | kinds::CTD_FLAG) => Flagged {
            number: 0,
            line: 0,
            column: 0,
            flag: text::judge(file, a.place.start, a.feed, b',', a.kind).size,
        },
        Ok(_) => Flagged {
            number: refusals::COLUMN_OF_OTHER_KIND,
            line: 0,
            column: 0,
            flag: 0,
        },
        Err(e) => Flagged {
            number: e.number,
            line: e.line,
            column: e.column,
            flag: 0,
        },
    }
}

// Where the cells of the measurement at a row and column stand, for the correcting part.
pub fn locate(file: &[u8], row: u64, column: u64) -> Located
    ensures { result ≡ located_of file.now row column }
{
    match finding::find_cell(file, row, column) {
        Ok(a) => {
            let flag = flag_column(file, a.names, column);
            Located {
                number: 0,
                line: 0,
                column: 0,
                value: a.place,
                measured: a.kind == kinds::MEASURED,
                ctd: finding::is_ctd(file, a.names, (column - 1) as usize),
                flagged: 0 < flag,
                flag: finding::place_in(file, a.at, flag),
            }
        }
        Err(e) => Located {
            number: e.number,
            line: e.line,
            column: e.column,
            value: Span { start: 0, len: 0 },
            measured: false,
            ctd: false,
            flagged: false,
            flag: Span { start: 0, len: 0 },
        },
    }
}
