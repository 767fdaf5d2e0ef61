// The ranges of the kinds: the largest size of each, and a judged cell that is held to one.
ghost use Rattle.std.specs.Prelude.{◌≡◌};
ghost use Rattle.verdicts.specs.Inner.Ranges.{top_of, ranged_of, within_of};

use crate::Judged;
use line_bytes::{kinds, limits, refusals};

// The largest sizes that are in range: 90 and 180 degrees in millionths.
const MOST_LATITUDE: u64 = 90000000;

const MOST_LONGITUDE: u64 = 180000000;

impl Judged {
    // A good number must be at most top.
    pub fn ranged(self, top: u64) -> Judged
        ensures { result ≡ ranged_of top self }
    {
        if top < self.size {
            Judged::refused(self.at, refusals::OUT_OF_RANGE)
        } else {
            self
        }
    }

    // A good cell must be of its kind's set or days or hours, which `inside` says.
    pub fn within(self, inside: bool) -> Judged
        ensures { result ≡ within_of inside self }
    {
        if inside | (self.number != 0) {
            self
        } else {
            Judged::refused(self.at, refusals::OUT_OF_RANGE)
        }
    }
}

// The largest size of a decimal of a kind.
pub fn top(kind: u8) -> u64
    ensures { result ≡ top_of kind }
{
    match kind {
        kinds::LATITUDE => MOST_LATITUDE,
        kinds::LONGITUDE => MOST_LONGITUDE,
        _ => limits::TOO_LARGE,
    }
}
