// One correction made in the lent file, which may be any bytes: decided first, then written. The types, and the calls for a line of a correction list, are
// handed on from the crates below.

#![tactic(auto)]

ghost use Rattle.std.specs.Prelude.{◌≡◌};
ghost use Rattle.orders.specs.Corrections.{answer_of, corrected_of};

mod deciding;
mod writing;

pub use list_lines::{name_in_line, read_list_line};
pub use orders::{Answer, ListLine, Order};

// Makes one correction in the lent file; a refused one leaves it as it is.
pub fn correct(file: &mut [u8], order: Order) -> Answer
    ensures value { result ≡ answer_of file.old order }
    ensures file_after { file.new ≡ corrected_of file.old order }
{
    match deciding::decide(file, order) {
        Ok(places) => {
            writing::write(file, places, order);
            Answer::Applied
        }
        Err(e) => Answer::Refused {
            number: e.number,
            line: e.line,
            column: e.column,
        },
    }
}
