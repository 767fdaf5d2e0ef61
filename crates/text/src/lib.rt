// The texts of an exchange file: the catalogue of names and kinds, and the reading of a decimal.
// What the crates below have for callers is handed on from here: the calls on bytes, and on cells judged by their kinds.

#![tactic(auto)]

ghost use Rattle.std.specs.Prelude.{◌≡◌};
ghost use Rattle.text.specs.Catalogue.{names, kinds, kind_in};
ghost use Rattle.text.specs.Reading.{reading_at};

pub use cells::{judge, judge_cells, whole};
pub use line_bytes::{
    Span, begins_ctd, first_control, first_return, ill_formed, is_name, kinds, limits,
    parameter_length, refusals, same, trim_span, trimmed,
};
pub use verdicts::{CellsRead, Judged, Keys, last_place, signed_size};

mod catalogue;
mod readings;

// The reading of a decimal.
#[derive(Clone, Copy)]
pub enum Reading {
    Present { millionths: i64, value: f64 },
    Missing,
    Refused { number: u64, line: u64, column: u64 },
}

// The catalogue's names, to be copied once and lent.
pub fn catalogue_names() -> [u8; 768]
    ensures { result ≡ names }
{
    catalogue::NAMES
}

// The kind of each of them.
pub fn catalogue_kinds() -> [u8; 48]
    ensures { result ≡ kinds }
{
    catalogue::KINDS
}

// The kind of a name in a lent catalogue: free text where it is not listed.
pub fn kind_of<'a>(listed: &'a [u8], of: &'a [u8], name: &'a [u8]) -> u8
    ensures { result ≡ kind_in listed.now of.now name.now }
{
    for k in 0..listed.len() / catalogue::ENTRY {
        if catalogue::is_entry(listed, k, name) {
            return of.get(k).copied().unwrap_or(kinds::FREE);
        }
    }
    kinds::FREE
}

// The reading of the decimal cell that starts at i; a line feed stands at e.
pub fn read_decimal(s: &[u8], i: usize, e: usize, separator: u8, kind: u8) -> Reading
    ensures { result ≡ reading_at kind separator s.now i e }
{
    readings::reading_of(judge(s, i, e, separator, kind), kind)
}
