// The reading of a judged decimal.
ghost use Rattle.std.specs.Prelude.{◌≡◌, ◌<◌, ◌^◌, nat_abs};
ghost use Rattle.text.specs.Reading.{read_number, reading_of};

use crate::Reading;
use line_bytes::{kinds, refusals};
use verdicts::{Judged, signed_size};

// -999 in millionths.
const MISSING: i64 = -999000000;

// Missing at -999; else the number itself with its double.
fn read_number(m: i64) -> Reading
    requires { nat_abs m < 10 ^ 15 }
    ensures { result ≡ read_number m }
{
    if m == MISSING {
        return Reading::Missing;
    }
    Reading::Present {
        millionths: m,
        value: (m as f64) / 1000000.0,
    }
}

// The decimal kinds are those up to DEPTH.
pub fn reading_of(j: Judged, kind: u8) -> Reading
    ensures { result ≡ reading_of kind j }
{
    if kinds::DEPTH < kind {
        return Reading::Refused {
            number: refusals::COLUMN_OF_OTHER_KIND,
            line: 0,
            column: 0,
        };
    }
    if j.number != 0 {
        return Reading::Refused {
            number: j.number,
            line: 0,
            column: 0,
        };
    }
    read_number(signed_size(j.minus, j.size))
}
