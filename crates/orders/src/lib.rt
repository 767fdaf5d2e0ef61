// A correction, its answer, and a line of a correction list: the types, and in specs/ and proofs/ what they mean and what follows, demand 3 among it. No
// function.

#![tactic(auto)]

use text::Span;

// A correction: the measurement at a row and column, counted from 1, set to so many millionths, written with so many decimals, and to a flag, which is 0
// where the column has no flag column.
#[derive(Clone, Copy)]
pub struct Order {
    pub row: u64,
    pub column: u64,
    pub millionths: i64,
    pub decimals: u64,
    pub flag: u64,
}

// A correction's answer: no Result, since the definitions and the theorems on corrections, Demand3 among them, are stated by this type.
#[derive(Clone, Copy)]
pub enum Answer {
    Applied,
    Refused { number: u64, line: u64, column: u64 },
}

// One line of a correction list, its column name by place; the number is 26 where it is malformed, else 0, as the definition line_read has it.
#[derive(Clone, Copy)]
pub struct ListLine {
    pub number: u64,
    pub row: u64,
    pub name: Span,
    pub millionths: i64,
    pub decimals: u64,
    pub flag: u64,
}
