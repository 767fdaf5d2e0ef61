// The cells of a measurement written: its value's text and its flag's digit, each at the right of its cell, spaces to the left.
ghost use Rattle.std.specs.Prelude.{◌≡◌};
ghost use Rattle.orders.specs.Corrections.{filled};
ghost use Rattle.correction.specs.Inner.Writing.{Writes, fills_at};

use numbers::{set_digit, set_number, size_of};
use orders::Order;
use text::Span;

// Where a measurement's cells stand, with their spaces: its value's, and its flag's if there is one.
#[derive(Clone, Copy)]
pub struct CellPlaces {
    pub value: Span,
    pub flag: Option<Span>,
}

// Writes the cells of a measurement: its value and, if there is one, its flag.
pub fn write(file: &mut [u8], places: CellPlaces, order: Order)
    requires { Writes file.old places order }
    ensures { file.new ≡ filled (fills_at places order) file.old }
{
    set_number(
        file,
        places.value,
        order.millionths < 0,
        size_of(order.millionths),
        order.decimals,
    );
    if let Some(flag) = places.flag {
        set_digit(file, flag, order.flag);
    }
}
