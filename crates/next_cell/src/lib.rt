// The next cell of a file from the place where it starts, in one pass over its bytes, for whoever walks from cell to cell. Any bytes and any place may come in.
// By hand: with a `for` over slices, one function of their number for the spaces, and iterators in grid, a walk took 1.06 times as many instructions.

#![tactic(auto)]

ghost use Rattle.std.specs.Prelude.{◌≡◌, true, false, ◌+◌, ◌-◌, ◌≤◌, ◌<◌, length, get_or};
ghost use Rattle.std.proofs.Math.Seq.{slice};
ghost use Rattle.line_bytes.specs.Bytes.{comma, space};
ghost use Rattle.line_bytes.specs.Cells.{cell_end};
ghost use Rattle.line_bytes.specs.Spaces.{trim_front};
ghost use Rattle.next_cell.specs.After.{cell_after};
ghost use Rattle.next_cell.specs.Inner.Spaces.{Spaces};

use grid::cell_end;
use text::{Span, trim_span};

// How many bytes are looked at first, all at once: a flag's cell ends among them, a value's cell mostly behind them.
const NEAR: usize = 8;

// Two and four spaces as one number.
const TWO_SPACES: u32 = 0x2020;

const FOUR_SPACES: u32 = 0x20202020;

// A cell: where it stands without its spaces, and where it ends with them.
#[derive(Clone, Copy)]
pub struct CellAfter {
    pub place: Span,
    pub stop: usize,
}

// The cell that starts at i.
pub fn cell_after(file: &[u8], i: usize) -> CellAfter
    ensures { result ≡ cell_after file.now i }
{
    let stop = cell_stop(file, i);
    if ends_solid(file, i, stop) {
        let first = past_spaces(file, i, stop);
        return CellAfter {
            place: Span {
                start: first,
                len: stop - first,
            },
            stop,
        };
    }
    CellAfter {
        place: trim_span(file, i, stop),
        stop,
    }
}

// Where the cell ends that goes on at i: at a comma, at a line feed or at the end of the bytes.
fn cell_stop(s: &[u8], i: usize) -> usize
    ensures { result ≡ cell_end comma s.now i }
{
    if s.len() < i {
        return i;
    }
    if s.len() - i <= NEAR || ends_near(s, i) {
        return cell_end(s, i);
    }
    cell_end(s, i + NEAR)
}

// Whether it ends among the near bytes from i on; the compiler compares them all at once.
fn ends_near(s: &[u8], i: usize) -> bool
    requires { i + 8 ≤ length s.now }
    ensures { result ≡ false → cell_end comma s.now i ≡ cell_end comma s.now (i + 8) }
{
    let mut k: usize = 0;
    let mut ends = false;
    while k < NEAR {
        ends = ends | (s[i + k] == b',') | (s[i + k] == b'\n');
        k += 1;
    }
    ends
}

// Whether a cell has bytes and the last of them is no space.
fn ends_solid(s: &[u8], i: usize, stop: usize) -> bool
    requires { i < stop → stop ≤ length s.now }
    ensures { result ≡ true → (i < stop) × (get_or s.now (stop - 1) 0 ≡ space → ⊥) }
{
    if stop <= i {
        return false;
    }
    s[stop - 1] != b' '
}

// Past the spaces at the front of a cell that is not blank: up to seven of them without a branch, since their number changes from row to row.
fn past_spaces(s: &[u8], i: usize, stop: usize) -> usize
    requires { (i < stop) × (stop ≤ length s.now) × (get_or s.now (stop - 1) 0 ≡ space → ⊥) }
    ensures { (i ≤ result) × (result < stop) × (trim_front (slice i stop s.now) ≡ slice result stop s.now) }
{
    let mut p = i;
    if 7 <= s.len() - i {
        p += four_spaces(s, p);
        p += two_spaces(s, p);
        p += one_space(s, p);
    }
    while s[p] == b' ' {
        p += 1;
    }
    p
}

// Four where the four bytes from p on are spaces, else none.
fn four_spaces(s: &[u8], p: usize) -> usize
    requires { p + 4 ≤ length s.now }
    ensures { (result ≤ 4) × Spaces s.now p (p + result) }
{
    let word = pair(s[p], s[p + 1]) + pair(s[p + 2], s[p + 3]) * 0x10000;
    if word == FOUR_SPACES { 4 } else { 0 }
}

// Likewise two.
fn two_spaces(s: &[u8], p: usize) -> usize
    requires { p + 2 ≤ length s.now }
    ensures { (result ≤ 2) × Spaces s.now p (p + result) }
{
    let word = pair(s[p], s[p + 1]);
    if word == TWO_SPACES { 2 } else { 0 }
}

// Likewise one.
fn one_space(s: &[u8], p: usize) -> usize
    requires { p < length s.now }
    ensures { (result ≤ 1) × Spaces s.now p (p + result) }
{
    if s[p] == b' ' { 1 } else { 0 }
}

// Two bytes as one number, which the compiler reads at once.
fn pair(a: u8, b: u8) -> u32
    ensures { (result < 0x10000) × (result ≡ 0x2020 → (a ≡ space) × (b ≡ space)) }
{
    (a as u32) + (b as u32) * 0x100
}
