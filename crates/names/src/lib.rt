// Names by place: each stands, with its spaces, at its place. Where one of them is, the first bad or repeated one, and the station names.

#![tactic(auto)]

ghost use Rattle.std.specs.Prelude.{◌≡◌, ◌+◌, [], get_or, position};
ghost use Rattle.line_bytes.specs.Bytes.{equal};
ghost use Rattle.format.specs.Faults.{has_all};
ghost use Rattle.format.specs.Headers.{station_names};
ghost use Rattle.format.specs.Inner.Names.{fault_in, text_in, names_at};

use format::NameFault;
use text::Span;

// The names of a station.
const STATION_NAMES: [&[u8]; 6] = [
    b"EXPOCODE",
    b"STNNBR",
    b"CASTNO",
    b"DATE",
    b"LATITUDE",
    b"LONGITUDE",
];

// The name that stands at a place, without its spaces.
fn name_of(s: &[u8], place: Span) -> &[u8]
    ensures { result.now ≡ text_in s.now place.start (place.start + place.len) }
{
    text::trimmed(s, place.start, place.start.saturating_add(place.len))
}

// Name k, from 0; the empty text where there is none.
pub fn name_at<'a>(s: &'a [u8], places: &'a [Span], k: usize) -> &'a [u8]
    ensures { result.now ≡ get_or (names_at s.now places.now) k [] }
{
    match places.get(k) {
        Some(place) => name_of(s, *place),
        None => &[],
    }
}

// Which of the names is the one given, the first being 0.
pub fn place_of<'a>(s: &'a [u8], places: &'a [Span], name: &'a [u8]) -> Option<usize>
    ensures { result ≡ position (λ x. equal x name.now) (names_at s.now places.now) }
{
    places
        .iter()
        .position(|place| text::same(name_of(s, *place), name))
}

// The first name that is bad or is the same as an earlier one: each name is compared with every earlier one, by nested loops left by a label, as document 01 asks.
pub fn first_fault<'a>(s: &'a [u8], places: &'a [Span]) -> Option<NameFault>
    ensures { result ≡ fault_in [] (names_at s.now places.now) 0 }
{
    let mut found = None;
    'names: for k in 0..places.len() {
        let name = name_at(s, places, k);
        if !text::is_name(name) {
            found = Some(NameFault::Bad(k));
            break 'names;
        }
        for j in 0..k {
            if text::same(name_at(s, places, j), name) {
                found = Some(NameFault::Repeated(k));
                break 'names;
            }
        }
    }
    found
}

// Whether the six station names are among them.
pub fn has_station<'a>(s: &'a [u8], places: &'a [Span]) -> bool
    ensures { result ≡ has_all station_names (names_at s.now places.now) }
{
    STATION_NAMES
        .iter()
        .all(|name| place_of(s, places, name).is_some())
}
