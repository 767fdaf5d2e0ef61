// The place of a walk over the cells of a file, by value, and the walker that holds it with the lent file.

#![tactic(auto)]

use format::CellPlace;

// On the cell of `row` and `column`, which ends with its spaces at `stop`, in a file of so many rows and columns; at the end row and column are 0. The file's
// refusal stands beside the cell's place. No Option: the definitions of specs/Walk and the ten numbers of the C interface have the end so.
#[derive(Clone, Copy)]
pub struct Cursor {
    pub cell: CellPlace,
    pub stop: usize,
    pub row: u64,
    pub column: u64,
    pub rows: u64,
    pub columns: u64,
}

#[derive(Clone, Copy)]
pub struct Walker<'a> {
    pub file: &'a [u8],
    pub cursor: Cursor,
}
