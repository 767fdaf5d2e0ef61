// A correction decided: the file's refusal or 21, then the rules 22 to 25 in number order. Nothing is written here.
ghost use Rattle.std.specs.Prelude.{◌≡◌};
ghost use Rattle.orders.specs.Corrections.{bad_number, wrong_flag};
ghost use Rattle.correction.specs.Inner.Deciding.{first_broken, tests_at, Decides};

use crate::writing::CellPlaces;
use exchange::Located;
use format::Refusal;
use numbers::{size_of, text_length};
use orders::Order;
use text::{last_place, limits, refusals};

// The largest flag, and the one that isn't used where the parameter's name begins with CTD.
const LARGEST_FLAG: u64 = 9;

const NO_CTD_FLAG: u64 = 8;

// Rule 23: a number that can't be written with so many decimals, or not without loss.
fn wrong_number(order: Order) -> bool
    ensures { result ≡ bad_number order }
{
    let size = size_of(order.millionths);
    limits::MOST_DECIMALS < order.decimals
        || limits::TOO_LARGE <= size
        || size % last_place(order.decimals) != 0
}

// Rule 24: a flag that is not of its parameter's set, or not 0 where there is no flag column. The bools are those of the definition.
fn wrong_flag(flagged: bool, ctd: bool, flag: u64) -> bool
    ensures { result ≡ wrong_flag flagged ctd flag }
{
    if flagged {
        !matches!(flag, 1..=LARGEST_FLAG) || (ctd && flag == NO_CTD_FLAG)
    } else {
        flag != 0
    }
}

// The first rule that is broken where row and column are there.
fn broken_rule(at: Located, order: Order) -> Option<u64>
    ensures { result ≡ first_broken (tests_at at order) }
{
    if !at.measured {
        return Some(refusals::COLUMN_OF_OTHER_KIND);
    }
    if wrong_number(order) {
        return Some(refusals::VALUE_NOT_WRITABLE);
    }
    if wrong_flag(at.flagged, at.ctd, order.flag) {
        return Some(refusals::FLAG_NOT_IN_SET);
    }
    let length = text_length(
        order.millionths < 0,
        size_of(order.millionths),
        order.decimals,
    );
    if at.value.len < length {
        return Some(refusals::TEXT_TOO_LONG);
    }
    None
}

// Decides a correction: the cells to write, or the refusal. The file is left as it is.
pub fn decide(file: &[u8], order: Order) -> Result<CellPlaces, Refusal>
    ensures { Decides file.now order result }
{
    let at = exchange::locate(file, order.row, order.column);
    if at.number != 0 {
        return Err(Refusal {
            number: at.number,
            line: at.line,
            column: at.column,
        });
    }
    if let Some(number) = broken_rule(at, order) {
        return Err(Refusal::nowhere(number));
    }
    Ok(CellPlaces {
        value: at.value,
        flag: at.flagged.then_some(at.flag),
    })
}
