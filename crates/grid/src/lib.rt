// Where lines and cells stand: total functions on bytes, apart from the check.
// The loops are by hand: with iterators and a `for` over slices here and in next_cell, a column's values took 1.33 times the instructions, a walk 1.06 times.

#![tactic(auto)]

ghost use Rattle.std.specs.Prelude.{◌≡◌, cond, false, ◌+◌, ◌≤◌, ◌==◌, length, take, drop, eqb, position};
ghost use Rattle.format.specs.Records.{no_place};
ghost use Rattle.line_bytes.specs.Cells.{line_at, pieces, cell_end};
ghost use Rattle.format.specs.Inner.Grid.{line_start, cell_span, count_of, skipped};

use format::CellPlace;
use text::Span;

// A refusal, with the empty place at the file's start.
pub fn no_place(number: u64, line: u64, column: u64) -> CellPlace
    ensures { result ≡ no_place number line column }
{
    CellPlace {
        number,
        line,
        column,
        place: Span { start: 0, len: 0 },
    }
}

fn is_byte(b: u8, wanted: u8) -> usize
    ensures { (result ≡ cond (eqb b wanted) 1 0) × (result ≤ 1) }
{
    if b == wanted { 1 } else { 0 }
}

// How many of the `width` bytes from i on are `wanted`.
fn count_in(s: &[u8], wanted: u8, i: usize, width: usize) -> usize
    requires { i + width ≤ length s.now }
    ensures { result ≡ count_of wanted (take width (drop i s.now)) }
{
    let mut k: usize = 0;
    let mut n: usize = 0;
    while k < width {
        n += is_byte(s[i + k], wanted);
        k += 1;
    }
    n
}

// Whether one of the `width` bytes from i on is a line feed.
fn feed_in(s: &[u8], i: usize, width: usize) -> bool
    requires { i + width ≤ length s.now }
    ensures { result ≡ false → count_of 10 (take width (drop i s.now)) ≡ 0 }
{
    let mut k: usize = 0;
    let mut feed = false;
    while k < width {
        feed = feed | (s[i + k] == b'\n');
        k += 1;
    }
    feed
}

// A place on the way to a line or a cell: it is at `at`, with `left` lines or cells to go.
#[derive(Clone, Copy)]
pub struct Skip {
    pub at: usize,
    pub left: usize,
}

// Past the blocks that hold fewer line feeds than are to go. The three walks over blocks stay apart: they differ in what a block must not hold and in what
// they carry on.
fn past_blocks(s: &[u8], from: usize, lines: usize) -> Skip
    requires { (from ≤ length s.now) × (1 ≤ lines) }
    ensures { (result.at ≤ length s.now) × (1 ≤ result.left) × (skipped s.now from lines ≡ skipped s.now result.at result.left) }
{
    let mut at = from;
    let mut left = lines;
    while 32 <= s.len() - at {
        let n = count_in(s, b'\n', at, 32);
        if left <= n {
            return Skip { at, left };
        }
        left -= n;
        at += 32;
    }
    Skip { at, left }
}

// Where the line starts that is so many lines after the one that goes on at `from`; the end where there are not so many.
pub fn line_start(s: &[u8], from: usize, lines: usize) -> usize
    ensures { result ≡ line_start s.now from lines }
{
    if lines == 0 {
        return from;
    }
    if s.len() < from {
        return s.len();
    }
    let p = past_blocks(s, from, lines);
    let mut at = p.at;
    let mut left = p.left;
    while at < s.len() {
        if s[at] == b'\n' {
            if left == 1 {
                return at + 1;
            }
            left -= 1;
        }
        at += 1;
    }
    at
}

// Past the blocks that hold no line feed.
fn past_plain(s: &[u8], i: usize, width: usize) -> usize
    requires { (i ≤ length s.now) × (1 ≤ width) }
    ensures { (result ≤ length s.now) × (i + length (line_at s.now i) ≡ result + length (line_at s.now result)) }
{
    let mut p = i;
    while width <= s.len() - p {
        if feed_in(s, p, width) {
            return p;
        }
        p += width;
    }
    p
}

// Where the first line feed stands.
fn first_feed(s: &[u8]) -> Option<usize>
    ensures { result ≡ position (λ b. b == 10) s.now }
{
    s.iter().position(|b| *b == b'\n')
}

// Where the line ends that goes on at i.
pub fn line_end(s: &[u8], i: usize) -> usize
    ensures { result ≡ i + length (line_at s.now i) }
{
    if s.len() < i {
        return i;
    }
    let wide = past_plain(s, i, 32);
    let p = past_plain(s, wide, 8);
    let rest = &s[p..];
    p + first_feed(rest).unwrap_or(rest.len())
}

// Where the cell ends that goes on at i: at a comma, at a line feed or at the end of the bytes.
pub fn cell_end(s: &[u8], i: usize) -> usize
    ensures { result ≡ cell_end 44 s.now i }
{
    let mut p = i;
    while p < s.len() {
        if (s[p] == b',') | (s[p] == b'\n') {
            return p;
        }
        p += 1;
    }
    p
}

// How many cells stand from i up to the end of the line.
pub fn cell_count(s: &[u8], i: usize) -> usize
    ensures { result ≡ length (pieces 44 (line_at s.now i)) }
{
    let mut n: usize = 1;
    let mut q = i;
    while q < s.len() {
        if s[q] == b'\n' {
            return n;
        }
        if s[q] == b',' {
            n += 1;
        }
        q += 1;
    }
    n
}

// Past the blocks that hold no line feed and fewer commas than are to go.
fn past_cells(s: &[u8], from: usize, cells: usize, width: usize) -> Skip
    requires { (from ≤ length s.now) × (1 ≤ cells) × (1 ≤ width) }
    ensures { (result.at ≤ length s.now) × (1 ≤ result.left) × (cell_span s.now from cells ≡ cell_span s.now result.at result.left) }
{
    let mut at = from;
    let mut left = cells;
    while width <= s.len() - at {
        if feed_in(s, at, width) {
            return Skip { at, left };
        }
        let n = count_in(s, b',', at, width);
        if left <= n {
            return Skip { at, left };
        }
        left -= n;
        at += width;
    }
    Skip { at, left }
}

// The place of the cell that starts at i.
fn first_span(s: &[u8], i: usize) -> Span
    ensures { result ≡ cell_span s.now i 0 }
{
    let q = cell_end(s, i);
    Span {
        start: i,
        len: q - i,
    }
}

// The place of a cell, counted from 0 and with its spaces, of the line that starts at `at`; the empty place at the start where it has no such cell.
pub fn cell_span(s: &[u8], at: usize, column: usize) -> Span
    ensures { result ≡ cell_span s.now at column }
{
    if column == 0 {
        return first_span(s, at);
    }
    if s.len() < at {
        return Span { start: 0, len: 0 };
    }
    let wide = past_cells(s, at, column, 32);
    let p = past_cells(s, wide.at, wide.left, 8);
    let mut i = p.at;
    let mut left = p.left;
    while i < s.len() {
        if s[i] == b'\n' {
            return Span { start: 0, len: 0 };
        }
        if s[i] == b',' {
            if left == 1 {
                return first_span(s, i + 1);
            }
            left -= 1;
        }
        i += 1;
    }
    Span { start: 0, len: 0 }
}
