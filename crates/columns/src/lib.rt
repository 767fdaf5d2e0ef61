// The names line: its rules, the columns that it names, and what is asked of one of them. Every call here takes any bytes and any place in them.

#![tactic(auto)]

ghost use Rattle.std.specs.Prelude.{◌≡◌, ℕ, List, Bool, ◌+◌, ◌-◌, ◌^◌, ◌≤◌, ◌<◌, length};
ghost use Rattle.line_bytes.specs.Cells.{line_at, pieces};
ghost use Rattle.text.specs.Catalogue.{names, kinds};
ghost use Rattle.format.specs.Faults.{has_all};
ghost use Rattle.format.specs.Columns.{names_of, required_names, kind_of_name};
ghost use Rattle.format.specs.Inner.Faults.{flag_fault};
ghost use Rattle.format.specs.Inner.Names.{names_at};
ghost use Rattle.format.specs.Inner.Sorts.{sort_for};
ghost use Rattle.columns.specs.Inner.Columns.{is_last, Placed, CellsFound, keeps_parameter, broken, columns_by, columns_for};
ghost use Rattle.format.specs.NamesLine.{name_in_line, kind_in_line, column_in_line, flag_in_line};
ghost use Rattle.columns.specs.Inner.NamesLine.{is_flag_of, first_from};

use format::{BrokenRule, NameFault};
use grid::{cell_end, cell_span};
use names::{first_fault, has_station, name_at, place_of};
use text::{Span, kinds, refusals};

// The most names, and so columns.
const MOST_NAMES: usize = 256;

// The columns: how many, and the kind of each.
// An array with its length beside it: the library crates use no heap.
#[derive(Clone, Copy)]
pub struct Columns {
    pub count: usize,
    pub kinds: [u8; 256],
}

// The rules of the names line that starts at `at`: 10 and 9 of the first 256 names, then 11, 12 and 13. `bottle` is a bool, since only two of the three kinds
// of FileKind come here.
pub fn read_columns(s: &[u8], at: usize, bottle: bool) -> Result<Columns, BrokenRule>
    ensures { result ≡ columns_for (sort_for bottle) (line_at s.now at) }
{
    let c = cells_of(s, at);
    let places = &c.places[..c.count];
    match first_fault(s, places) {
        Some(NameFault::Bad(k)) => {
            return Err(broken(refusals::BAD_COLUMN_NAME, at, places[k].start));
        }
        Some(NameFault::Repeated(k)) => {
            return Err(broken(refusals::NAME_REPEATED, at, places[k].start));
        }
        None => {}
    }
    if let Some(over) = c.over {
        return Err(broken(refusals::TOO_MANY_NAMES, at, over));
    }
    let columns = kinds_of(s, at, places)?;
    if !has_required(s, places, bottle) {
        return Err(BrokenRule {
            number: refusals::REQUIRED_NAME_ABSENT,
            column: 1,
        });
    }
    Ok(columns)
}

// The kind of a column, counted from 1, of the names line that starts at `at`; free text where it has no such column.
pub fn kind_in(s: &[u8], at: usize, column: u64) -> u8
    ensures { result ≡ kind_in_line (line_at s.now at) column }
{
    let listed = text::catalogue_names();
    let of = text::catalogue_kinds();
    kind_of_name(&listed, &of, name_in(s, at, column))
}

// The number of the column of a name, from 1, of the names line that starts at `at`; 0 where there is none.
// A number with 0 for none, and no Option, here and in flag_column: column_in_line and flag_in_line of the definitions say it, and the C interface hands it on.
pub fn column_in<'a>(s: &'a [u8], at: usize, name: &'a [u8]) -> u64
    ensures { result ≡ column_in_line (line_at s.now at) name.now }
{
    column_where(s, at, |other| text::same(other, name))
}

// The number of the flag column of a column, both counted from 1, of the names line that starts at `at`; 0 where there is none.
pub fn flag_column(s: &[u8], at: usize, column: u64) -> u64
    ensures { result ≡ flag_in_line (line_at s.now at) column }
{
    let name = name_in(s, at, column);
    column_where(s, at, |other| is_flag_of(other, name))
}

// The places of the cells of the names line, 256 at the most; where there is one more, where it starts.
// An array with its length beside it: the library crates use no heap.
#[derive(Clone, Copy)]
pub struct Cells {
    pub count: usize,
    pub places: [Span; 256],
    pub over: Option<usize>,
}

// Whether the line ends at q, where one of its cells does.
fn ends_line(s: &[u8], q: usize) -> bool
    ensures { result ≡ is_last s.now q }
{
    s.len() <= q || s[q] == b'\n'
}

// The cells of the line that starts at `at`.
fn cells_of(s: &[u8], at: usize) -> Cells
    ensures { CellsFound s.now at result }
{
    let mut places = [Span { start: 0, len: 0 }; 256];
    let mut i = at;
    for k in 0..MOST_NAMES {
        let q = cell_end(s, i);
        places[k] = Span {
            start: i,
            len: q - i,
        };
        if ends_line(s, q) {
            return Cells {
                count: k + 1,
                places,
                over: None,
            };
        }
        i = q + 1;
    }
    Cells {
        count: MOST_NAMES,
        places,
        over: Some(i),
    }
}

// The rule of that number, broken by the cell that starts there in the line that starts at `at`.
fn broken(number: u64, at: usize, start: usize) -> BrokenRule
    requires { (at ≤ start) × ((start - at) + 1 < 2 ^ 64) }
    ensures { result ≡ broken number (start - at + 1) }
{
    BrokenRule {
        number,
        column: (start - at) as u64 + 1,
    }
}

// The kind of the column of a name, by the catalogue, which is lent.
fn kind_of_name<'a>(listed: &'a [u8], of: &'a [u8], name: &'a [u8]) -> u8
    requires { (listed.now ≡ names) × (of.now ≡ kinds) }
    ensures { result ≡ kind_of_name name.now }
{
    let p = text::parameter_length(name);
    if p == 0 {
        return text::kind_of(listed, of, name);
    }
    if text::begins_ctd(&name[..p]) {
        return kinds::CTD_FLAG;
    }
    kinds::FLAG
}

// Whether a name is no flag column's, or its parameter is one of the names and no flag column's.
fn keeps_parameter<'a>(s: &'a [u8], places: &'a [Span], name: &'a [u8]) -> bool
    ensures { result ≡ keeps_parameter (names_at s.now places.now) name.now }
{
    let p = text::parameter_length(name);
    if p == 0 {
        return true;
    }
    let parameter = &name[..p];
    if 0 < text::parameter_length(parameter) {
        return false;
    }
    place_of(s, places, parameter).is_some()
}

// The kinds of the names of the line that starts at `at`, and rule 12 from the left.
fn kinds_of<'a>(s: &'a [u8], at: usize, places: &'a [Span]) -> Result<Columns, BrokenRule>
    requires { (Placed s.now at places.now) × (length places.now ≡ length (pieces 44 (line_at s.now at))) }
    ensures { result ≡ columns_by (names_of (line_at s.now at)) (flag_fault 1 (names_of (line_at s.now at)) (pieces 44 (line_at s.now at))) }
{
    let listed = text::catalogue_names();
    let of = text::catalogue_kinds();
    let mut kinds = [0u8; 256];
    for k in 0..places.len() {
        let name = name_at(s, places, k);
        if !keeps_parameter(s, places, name) {
            return Err(broken(refusals::FLAG_WITHOUT_PARAMETER, at, places[k].start));
        }
        kinds[k] = kind_of_name(&listed, &of, name);
    }
    Ok(Columns {
        count: places.len(),
        kinds,
    })
}

// Rule 13 of the names line: the station names in a bottle file, CTDPRS in a CTD file.
fn has_required<'a>(s: &'a [u8], places: &'a [Span], bottle: bool) -> bool
    ensures { result ≡ has_all (required_names (sort_for bottle)) (names_at s.now places.now) }
{
    if bottle {
        has_station(s, places)
    } else {
        place_of(s, places, b"CTDPRS").is_some()
    }
}

// The name of a column, counted from 1; the empty part where the line that starts at `at` has no such column.
fn name_in(s: &[u8], at: usize, column: u64) -> &[u8]
    ensures { result.now ≡ name_in_line (line_at s.now at) column }
{
    if column == 0 {
        return text::trimmed(s, 0, 0);
    }
    let p = cell_span(s, at, (column - 1) as usize);
    text::trimmed(s, p.start, p.start + p.len)
}

// Whether a column is the flag column of a name.
fn is_flag_of<'a>(column: &'a [u8], name: &'a [u8]) -> bool
    ensures { result ≡ is_flag_of name.now column.now }
{
    let p = text::parameter_length(column);
    0 < p && text::same(&column[..p], name)
}

// The number, from 1, of the first column of the line that starts at `at` whose name is wanted; 0 where there is none.
// By hand: the cells are found one after the other, and no list holds them that an iterator could go over.
fn column_where<F: Fn(&[u8]) -> bool>(s: &[u8], at: usize, wanted: F) -> u64
    requires { F.IsAlwaysCallable wanted }
    ensures { (p : List ℕ → Bool) → ((x : _) (b : Bool) → F.post wanted x b → b ≡ p x.now) → result ≡ first_from 1 p (names_of (line_at s.now at)) }
{
    let mut i = at;
    let mut k: u64 = 1;
    loop {
        let q = cell_end(s, i);
        if wanted(text::trimmed(s, i, q)) {
            return k;
        }
        if ends_line(s, q) {
            return 0;
        }
        i = q + 1;
        k += 1;
    }
}
