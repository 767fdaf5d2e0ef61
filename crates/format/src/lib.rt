// The types of a file's answers; its definitions stand in specs/, its laws in proofs/.

#![tactic(auto)]

ghost use Rattle.std.specs.Prelude.{◌≡◌, MatchResult};

use text::{Reading, Span};

// The first broken rule of a line: its number, and the column shown.
#[derive(Clone, Copy, Debug, PartialEq, Eq)]
pub struct BrokenRule {
    pub number: u64,
    pub column: u64,
}

// A refusal: its number, and the line and column shown, 0 each where no file is at fault.
#[derive(Clone, Copy, Debug, PartialEq, Eq)]
pub struct Refusal {
    pub number: u64,
    pub line: u64,
    pub column: u64,
}

impl Refusal {
    // Refused by a number, with no place in the file.
    pub fn nowhere(number: u64) -> Refusal
        ensures { result ≡ record { number = number; line = 0; column = 0 } }
    {
        Refusal {
            number,
            line: 0,
            column: 0,
        }
    }
}

impl BrokenRule {
    // The refusal of a file for a rule that its line of that number breaks.
    pub fn on(self, line: u64) -> Refusal
        ensures { (result.number ≡ self.number) × (result.line ≡ line) × (result.column ≡ self.column) }
    {
        Refusal {
            number: self.number,
            line,
            column: self.column,
        }
    }
}

// The kind of a file; unknown where it is refused, as `checked_of` has it.
#[derive(Clone, Copy, Debug, PartialEq, Eq)]
pub enum FileKind {
    Unknown,
    Bottle,
    Ctd,
}

// The answers below have the refusal's number beside their values, 0 for none, and are no Result: the definitions that the public calls promise (`checked_of`,
// `place_for`, `located_of` and others) end in them, and the C interface hands their numbers on. So too `flagged` beside `flag`, as `located_of` has it.

// The check's answer: accepted with its counts where the number is 0, else refused at line and column.
#[derive(Clone, Copy)]
pub struct Checked {
    pub number: u64,
    pub line: u64,
    pub column: u64,
    pub kind: FileKind,
    pub columns: u64,
    pub rows: u64,
    pub profiles: u64,
    pub missing: u64,
}

// A file opened: the check's answer, and where its headers, its names line and its first data line start; 0 each where the file is refused. The headers start
// where the names line does if there are none.
#[derive(Clone, Copy)]
pub struct Opened {
    pub checked: Checked,
    pub headers: usize,
    pub names: usize,
    pub first: usize,
}

impl Opened {
    // The file opened, where it is accepted; else its refusal.
    pub fn accepted(self) -> Result<Opened, Refusal>
        ensures { MatchResult result
            (λ o. (o ≡ self) × (o.checked.number ≡ 0))
            (λ r. (self.checked.number ≡ 0 → ⊥) × (r ≡ record { number = self.checked.number; line = self.checked.line; column = self.checked.column })) }
    {
        let c = self.checked;
        if c.number != 0 {
            return Err(Refusal {
                number: c.number,
                line: c.line,
                column: c.column,
            });
        }
        Ok(self)
    }
}

// The number of a column, from 1; or the refusal.
#[derive(Clone, Copy)]
pub struct Named {
    pub number: u64,
    pub line: u64,
    pub column: u64,
    pub place: u64,
}

// A flag, or the refusal.
#[derive(Clone, Copy)]
pub struct Flagged {
    pub number: u64,
    pub line: u64,
    pub column: u64,
    pub flag: u64,
}

// When a cast was made.
#[derive(Clone, Copy)]
pub enum CastTime {
    Given { hour: u64, minute: u64 },
    Missing,
}

// A profile's record where the number is 0, else the refusal.
#[derive(Clone, Copy)]
pub struct ProfileRecord {
    pub number: u64,
    pub line: u64,
    pub column: u64,
    pub time: CastTime,
    pub first: u64,
    pub rows: u64,
    pub castno: u64,
    pub date: u64,
}

// Where a trimmed text stands in the file; or the refusal, with the empty place at the file's start.
#[derive(Clone, Copy)]
pub struct CellPlace {
    pub number: u64,
    pub line: u64,
    pub column: u64,
    pub place: Span,
}

// Where the name and the value of a header stand, both trimmed; or the refusal, with empty places at the file's start.
#[derive(Clone, Copy)]
pub struct HeaderPlace {
    pub number: u64,
    pub line: u64,
    pub column: u64,
    pub name: Span,
    pub value: Span,
}

// The reading of a line's cell, and where the next line starts.
#[derive(Clone, Copy)]
pub struct DecimalStep {
    pub reading: Reading,
    pub next: usize,
}

// The flag of a line's cell, and where the next line starts.
#[derive(Clone, Copy)]
pub struct FlagStep {
    pub flagged: Flagged,
    pub next: usize,
}

// Where the cells of a measurement stand, with their spaces, and what column they are of; or the refusal.
#[derive(Clone, Copy)]
pub struct Located {
    pub number: u64,
    pub line: u64,
    pub column: u64,
    pub value: Span,
    pub measured: bool,
    pub ctd: bool,
    pub flagged: bool,
    pub flag: Span,
}

// What is wrong with a name of a list, by its place from 0: it is bad, or the same as an earlier one.
#[derive(Clone, Copy, Debug, PartialEq, Eq)]
pub enum NameFault {
    Bad(usize),
    Repeated(usize),
}
