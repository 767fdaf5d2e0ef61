// The profiles of a file, and their station values.

#![tactic(auto)]

ghost use Rattle.std.specs.Prelude.{◌≡◌};
ghost use Rattle.line_bytes.specs.Spaces.{IsPart};
ghost use Rattle.format.specs.Records.{profile_of, stationed_of, station_place, station_refusal, station_answer};

use format::{CastTime, CellPlace, ProfileRecord};
use grid::no_place;
use text::{kinds, refusals};

mod runs;
mod values;

// The record of profile k.
pub fn profile(file: &[u8], k: u64) -> ProfileRecord
    ensures { result ≡ profile_of file.now k }
{
    let p = match runs::profile_at(file, k) {
        Ok(p) => p,
        Err(r) => {
            return ProfileRecord {
                number: r.number,
                line: r.line,
                column: r.column,
                time: CastTime::Missing,
                first: 0,
                rows: 0,
                castno: 0,
                date: 0,
            };
        }
    };
    let time = runs::station_value(file, p, b"TIME");
    let castno = runs::station_value(file, p, b"CASTNO");
    let date = runs::station_value(file, p, b"DATE");
    ProfileRecord {
        number: 0,
        line: 0,
        column: 0,
        time: values::time_in(file, time),
        first: p.first,
        rows: p.rows,
        castno: values::number_in(file, castno, kinds::CASTNO),
        date: values::number_in(file, date, kinds::DATE),
    }
}

// Where a station value of profile k stands, by its name: trimmed; for other languages.
pub fn station_place<'a>(file: &'a [u8], k: u64, name: &'a [u8]) -> CellPlace
    ensures { result ≡ station_answer file.now (stationed_of file.now k name.now) }
{
    let p = match runs::profile_at(file, k) {
        Ok(p) => p,
        Err(r) => return no_place(r.number, r.line, r.column),
    };
    let Some(v) = runs::station_value(file, p, name) else {
        return no_place(refusals::NO_SUCH_PLACE, 0, 0);
    };
    CellPlace {
        number: 0,
        line: 0,
        column: 0,
        place: text::trim_span(file, v.start, v.start + v.len),
    }
}

// A station value of profile k by its name: the trimmed part of the file itself; refusal gets number, line and column.
// No Result: on refusal it is an empty part of the file, the form that document 01 asks of `cell`.
pub fn station<'a>(file: &'a [u8], k: u64, name: &'a [u8], refusal: &mut [u64; 3]) -> &'a [u8]
    ensures part { IsPart file.entry result (station_place file.now (stationed_of file.now k name.now)) }
    ensures refusal_after { refusal.new ≡ station_refusal (stationed_of file.now k name.now) }
{
    let r = station_place(file, k, name);
    *refusal = [r.number, r.line, r.column];
    let b = r.place.start;
    let n = r.place.len;
    &file[b..b + n]
}
