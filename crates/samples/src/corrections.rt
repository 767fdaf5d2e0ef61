// Samples of corrections to K.
use crate::file_k::{edited, is_edited};
use correction::{Answer, Order};
use text::Reading;

// The number of an answer; 0 where it is applied.
fn number_of(answer: Answer) -> u64 {
    match answer {
        Answer::Applied => 0,
        Answer::Refused { number, .. } => number,
    }
}

fn order(row: u64, column: u64, millionths: i64, decimals: u64, flag: u64) -> Order {
    Order {
        row,
        column,
        millionths,
        decimals,
        flag,
    }
}

// Corrects K; whether the answer's number is that one, and the file then is K with a text in place of its bytes from a line and column on.
fn leaves(order: Order, number: u64, line: u64, from: usize, t: &[u8]) -> bool {
    let mut file = edited(1, 1, b"BOTTLE");
    let given = number_of(correction::correct(&mut file, order));
    (given == number) & is_edited(&file, line, from, t)
}

// The cell is two spaces and the text, and trimmed it is the text.
pub fn salinity() -> bool {
    let mut refusal = [0u64; 3];
    let file = edited(6, 53, b"  35.1301,2");
    let cell = exchange::cell(&file, 2, 8, &mut refusal);
    (cell == b"35.1301".as_slice()) & leaves(order(2, 8, 35130100, 4, 2), 0, 6, 53, b"  35.1301,2")
}

pub fn too_long() -> bool {
    leaves(order(1, 8, -999000000, 4, 9), 25, 1, 1, b"BOTTLE")
}

fn is_missing(reading: Reading) -> bool {
    matches!(reading, Reading::Missing)
}

// The text fits, and it reads as missing in its spelling as in the other one.
pub fn fits() -> bool {
    let file = edited(5, 53, b"-999.000,9");
    let c = exchange::check(&file);
    leaves(order(1, 8, -999000000, 3, 9), 0, 5, 53, b"-999.000,9")
        & is_missing(exchange::decimal(&file, 1, 8))
        & is_missing(exchange::decimal(&file, 2, 8))
        & (c.missing == 2)
}

pub fn shorter() -> bool {
    leaves(order(2, 8, 7000000, 0, 2), 0, 6, 53, b"        7,2")
}

// K with the flag column made that of CTDPRS, two columns after it.
pub fn distant_flag() -> bool {
    let mut file = edited(3, 62, b"CTDPRS_FLAG_W");
    let bare = number_of(correction::correct(&mut file, order(1, 8, 35000000, 1, 2)));
    let given = number_of(correction::correct(&mut file, order(1, 7, 11500000, 1, 3)));
    let flag = exchange::flag(&file, 1, 9);
    let other = exchange::flag(&file, 2, 9);
    (bare == 24) & (given == 0) & (flag.flag == 3) & (other.flag == 9)
}
