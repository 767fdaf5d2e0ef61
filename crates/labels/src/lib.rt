// A column by its name; the names and units of columns and the headers of a CTD file, handed out. The file is checked first.

#![tactic(auto)]

ghost use Rattle.std.specs.Prelude.{◌≡◌, ◌+◌, ◌≤◌, length, MatchResult};
ghost use Rattle.line_bytes.specs.Spaces.{IsPart};
ghost use Rattle.format.specs.Opened.{opened_of};
ghost use Rattle.format.specs.Places.{outcome_of, refused};
ghost use Rattle.format.specs.Labels.{none_named, named_of, name_place, unit_place, no_header, header_for, place_refusal, header_refusal};
ghost use Rattle.format.specs.Inner.Labels.{label_in, HasEquals, header_in};

use columns::column_in;
use format::{CellPlace, HeaderPlace, Named, Opened, Refusal};
use grid::{cell_span, line_end, line_start, no_place};
use headers::equals_from;
use rules::open_file;
use text::{Span, refusals, trim_span};

// The number of the column of a name, compared as it is.
pub fn column_named<'a>(file: &'a [u8], name: &'a [u8]) -> Named
    ensures { result ≡ named_of file.now name.now }
{
    let o = match accepted(file) {
        Ok(o) => o,
        Err(r) => return none_named(r),
    };
    let place = column_in(file, o.names, name);
    if place == 0 {
        return none_named(Refusal::nowhere(refusals::NO_SUCH_PLACE));
    }
    Named {
        number: 0,
        line: 0,
        column: 0,
        place,
    }
}

// The place of a column's trimmed name.
pub fn name_place(file: &[u8], column: u64) -> CellPlace
    ensures { result ≡ name_place file.now column }
{
    match accepted(file) {
        Ok(o) => label_in(file, o.names, column, o.checked.columns),
        Err(r) => no_place(r.number, r.line, r.column),
    }
}

// A column's trimmed name, a part of the file itself; refusal gets number, line and column.
// No Result: on refusal it is an empty part of the file, the form that document 01 asks of `cell`.
pub fn name_of<'a>(file: &'a [u8], column: u64, refusal: &mut [u64; 3]) -> &'a [u8]
    ensures part { IsPart file.entry result (name_place file.now column).place }
    ensures refusal_after { refusal.new ≡ place_refusal (name_place file.now column) }
{
    hand_out(file, name_place(file, column), refusal)
}

// The place of a column's trimmed unit, in the line after the names line; it may be empty.
pub fn unit_place(file: &[u8], column: u64) -> CellPlace
    ensures { result ≡ unit_place file.now column }
{
    match accepted(file) {
        Ok(o) => {
            let feed = line_end(file, o.names);
            label_in(file, feed + 1, column, o.checked.columns)
        }
        Err(r) => no_place(r.number, r.line, r.column),
    }
}

// A column's trimmed unit, a part of the file itself; refusal gets number, line and column.
// No Result: on refusal it is an empty part of the file, the form that document 01 asks of `cell`.
pub fn unit_of<'a>(file: &'a [u8], column: u64, refusal: &mut [u64; 3]) -> &'a [u8]
    ensures part { IsPart file.entry result (unit_place file.now column).place }
    ensures refusal_after { refusal.new ≡ place_refusal (unit_place file.now column) }
{
    hand_out(file, unit_place(file, column), refusal)
}

// The places of the name and the value of header k, from 1: its line stands before the names line.
pub fn header_place(file: &[u8], k: u64) -> HeaderPlace
    ensures { result ≡ header_for file.now k }
{
    let o = match accepted(file) {
        Ok(o) => o,
        Err(r) => return no_header(r),
    };
    if k == 0 {
        return no_header(Refusal::nowhere(refusals::NO_SUCH_PLACE));
    }
    let at = line_start(file, o.headers, (k - 1) as usize);
    if o.names <= at {
        return no_header(Refusal::nowhere(refusals::NO_SUCH_PLACE));
    }
    header_at(file, at)
}

// The trimmed name of header k, a part of the file itself; refusal gets number, line and column.
// No Result: on refusal it is an empty part of the file, the form that document 01 asks of `cell`.
pub fn header_name<'a>(file: &'a [u8], k: u64, refusal: &mut [u64; 3]) -> &'a [u8]
    ensures part { IsPart file.entry result (header_for file.now k).name }
    ensures refusal_after { refusal.new ≡ header_refusal (header_for file.now k) }
{
    let h = header_place(file, k);
    hand_out(file, header_part(h, h.name), refusal)
}

// The trimmed value of header k, a part of the file itself; refusal gets number, line and column.
// No Result: on refusal it is an empty part of the file, the form that document 01 asks of `cell`.
pub fn header_value<'a>(file: &'a [u8], k: u64, refusal: &mut [u64; 3]) -> &'a [u8]
    ensures part { IsPart file.entry result (header_for file.now k).value }
    ensures refusal_after { refusal.new ≡ header_refusal (header_for file.now k) }
{
    let h = header_place(file, k);
    hand_out(file, header_part(h, h.value), refusal)
}

fn none_named(r: Refusal) -> Named
    ensures { result ≡ none_named r.number r.line r.column }
{
    Named {
        number: r.number,
        line: r.line,
        column: r.column,
        place: 0,
    }
}

fn no_header(r: Refusal) -> HeaderPlace
    ensures { result ≡ no_header r.number r.line r.column }
{
    HeaderPlace {
        number: r.number,
        line: r.line,
        column: r.column,
        name: Span { start: 0, len: 0 },
        value: Span { start: 0, len: 0 },
    }
}

// A file opened, if it is accepted; or its refusal.
fn accepted(file: &[u8]) -> Result<Opened, Refusal>
    ensures { MatchResult result (λ o. (o ≡ opened_of file.now) × (o.checked.number ≡ 0)) (λ r. outcome_of file.now ≡ refused r.number r.line r.column) }
{
    open_file(file).accepted()
}

// The part of the file at a place in it; refusal gets number, line and column.
// No Result: the four calls above promise the lent array.
fn hand_out<'a>(file: &'a [u8], found: CellPlace, refusal: &mut [u64; 3]) -> &'a [u8]
    requires { found.place.start + found.place.len ≤ length file.now }
    ensures part { IsPart file.entry result found.place }
    ensures refusal_after { refusal.new ≡ place_refusal found }
{
    *refusal = [found.number, found.line, found.column];
    let start = found.place.start;
    let end = start + found.place.len;
    &file[start..end]
}

// A part of a header as a place found; or the header's refusal.
fn header_part(h: HeaderPlace, part: Span) -> CellPlace
    ensures { result ≡ record { number = h.number; line = h.line; column = h.column; place = part } }
{
    CellPlace {
        number: h.number,
        line: h.line,
        column: h.column,
        place: part,
    }
}

// The place of the trimmed cell of a column, counted from 1, in the line that starts at `at`; 21 where there are fewer columns.
fn label_in(file: &[u8], at: usize, column: u64, columns: u64) -> CellPlace
    ensures { result ≡ label_in file.now at column columns }
{
    if !(1..=columns).contains(&column) {
        return no_place(refusals::NO_SUCH_PLACE, 0, 0);
    }
    let p = cell_span(file, at, (column - 1) as usize);
    CellPlace {
        number: 0,
        line: 0,
        column: 0,
        place: trim_span(file, p.start, p.start + p.len),
    }
}

// The header on the line that starts at `at`: its name up to the first =, its value from there to the line feed.
fn header_at(file: &[u8], at: usize) -> HeaderPlace
    requires { HasEquals file.now at }
    ensures { result ≡ header_in file.now at }
{
    let equals = equals_from(file, at);
    HeaderPlace {
        number: 0,
        line: 0,
        column: 0,
        name: trim_span(file, at, equals),
        value: trim_span(file, equals + 1, line_end(file, at)),
    }
}
