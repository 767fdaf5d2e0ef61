// The calls for programs in other languages: numbers and bytes only. Each writes the numbers of its answer into the lent array, refusal number, line and column
// first (a list line has its number alone), and answers the refusal number, 0 where nothing is refused; a decimal answers which reading it is.

#![tactic(auto)]

ghost use Rattle.std.specs.Prelude.{◌≡◌};
ghost use Rattle.format.specs.Answers.{checked_of, place_for, reading_for, flagged_of};
ghost use Rattle.format.specs.ReadingNumbers.{reading_case, read_millionths, read_value};
ghost use Rattle.format.specs.Records.{profile_of, stationed_of, station_answer};
ghost use Rattle.orders.specs.Corrections.{order_of, answer_of, corrected_of, numbers_of};
ghost use Rattle.orders.specs.ListLines.{line_read};
ghost use Rattle.pochahuic.specs.Numbers.{kind_number, check_numbers, place_numbers, refusal_of, flag_numbers, time_numbers, profile_numbers, answer_number, line_numbers};

use correction::{Answer, Order};
use exchange::{CastTime, CellPlace, FileKind};
use text::Reading;

// The kind of a file as a number: of a refused one, of a bottle and of a CTD file. Numbers, here as in every answer: the C interface has them (bindings/c/pochahuic.h).
const NO_KIND: u64 = 0;

const BOTTLE: u64 = 1;

const CTD: u64 = 2;

// Which reading a decimal has.
const PRESENT: u64 = 0;

const MISSING: u64 = 1;

const REFUSED: u64 = 2;

// That number.
pub fn kind_number(kind: FileKind) -> u64
    ensures { result ≡ kind_number kind }
{
    match kind {
        FileKind::Unknown => NO_KIND,
        FileKind::Bottle => BOTTLE,
        FileKind::Ctd => CTD,
    }
}

// Checks a file: number, line, column, kind, columns, rows, profiles, missing readings.
pub fn pochahuic_check(file: &[u8], out: &mut [u64; 8]) -> u64
    ensures value { result ≡ (checked_of file.now).number }
    ensures out_after { out.new ≡ check_numbers (checked_of file.now) }
{
    let c = exchange::check(file);
    let kind = kind_number(c.kind);
    *out = [
        c.number, c.line, c.column, kind, c.columns, c.rows, c.profiles, c.missing,
    ];
    c.number
}

// A refusal, or a place: number, line, column, start, length. By hand, as the numbers of a time: neither type is of this crate, so there can be no From.
pub fn place_numbers(at: CellPlace) -> [u64; 5]
    ensures { result ≡ place_numbers at }
{
    [
        at.number,
        at.line,
        at.column,
        at.place.start as u64,
        at.place.len as u64,
    ]
}

// Where a trimmed cell stands: number, line, column, start, length; the start counts from 0.
pub fn pochahuic_cell(file: &[u8], row: u64, column: u64, out: &mut [u64; 5]) -> u64
    ensures value { result ≡ (place_for file.now row column).number }
    ensures out_after { out.new ≡ place_numbers (place_for file.now row column) }
{
    let at = exchange::cell_place(file, row, column);
    *out = place_numbers(at);
    at.number
}

// Reads a decimal: PRESENT, MISSING or REFUSED; the millionths and the double, and number, line, column.
pub fn pochahuic_decimal(
    file: &[u8],
    row: u64,
    column: u64,
    millionths: &mut i64,
    value: &mut f64,
    out: &mut [u64; 3],
) -> u64
    ensures value { result ≡ reading_case (reading_for file.now row column) }
    ensures millionths_after { millionths.new ≡ read_millionths (reading_for file.now row column) }
    ensures value_after { value.new ≡ read_value (reading_for file.now row column) }
    ensures out_after { out.new ≡ refusal_of (reading_for file.now row column) }
{
    let r = exchange::decimal(file, row, column);
    *millionths = 0;
    *value = 0.0;
    *out = [0, 0, 0];
    match r {
        Reading::Present {
            millionths: m,
            value: v,
        } => {
            *millionths = m;
            *value = v;
            PRESENT
        }
        Reading::Missing => MISSING,
        Reading::Refused {
            number: n,
            line: l,
            column: c,
        } => {
            *out = [n, l, c];
            REFUSED
        }
    }
}

// Reads a flag: number, line, column, flag.
pub fn pochahuic_flag(file: &[u8], row: u64, column: u64, out: &mut [u64; 4]) -> u64
    ensures value { result ≡ (flagged_of file.now row column).number }
    ensures out_after { out.new ≡ flag_numbers (flagged_of file.now row column) }
{
    let f = exchange::flag(file, row, column);
    *out = [f.number, f.line, f.column, f.flag];
    f.number
}

// 1, hour and minute where a time is given, else 0 each.
fn time_numbers(time: CastTime) -> [u64; 3]
    ensures { result ≡ time_numbers time }
{
    match time {
        CastTime::Given { hour, minute } => [1, hour, minute],
        CastTime::Missing => [0, 0, 0],
    }
}

// The record of profile k: number, line, column, first row, rows, CASTNO, DATE, whether its time is given, hour, minute.
pub fn pochahuic_profile(file: &[u8], k: u64, out: &mut [u64; 10]) -> u64
    ensures value { result ≡ (profile_of file.now k).number }
    ensures out_after { out.new ≡ profile_numbers (profile_of file.now k) }
{
    let p = exchange::profile(file, k);
    let time = time_numbers(p.time);
    *out = [
        p.number, p.line, p.column, p.first, p.rows, p.castno, p.date, time[0], time[1], time[2],
    ];
    p.number
}

// Where a station value of profile k stands, by its name: number, line, column, start, length; the start counts from 0.
pub fn pochahuic_station<'a>(file: &'a [u8], k: u64, name: &'a [u8], out: &mut [u64; 5]) -> u64
    ensures value { result ≡ (station_answer file.now (stationed_of file.now k name.now)).number }
    ensures out_after { out.new ≡ place_numbers (station_answer file.now (stationed_of file.now k name.now)) }
{
    let at = exchange::station_place(file, k, name);
    *out = place_numbers(at);
    at.number
}

// Makes one correction in the file: number, line, column.
pub fn pochahuic_correct(
    file: &mut [u8],
    row: u64,
    column: u64,
    millionths: i64,
    decimals: u64,
    flag: u64,
    out: &mut [u64; 3],
) -> u64
    ensures value { result ≡ answer_number (answer_of file.old (order_of row column millionths decimals flag)) }
    ensures file_after { file.new ≡ corrected_of file.old (order_of row column millionths decimals flag) }
    ensures out_after { out.new ≡ numbers_of (answer_of file.old (order_of row column millionths decimals flag)) }
{
    let order = Order {
        row,
        column,
        millionths,
        decimals,
        flag,
    };
    let a = correction::correct(file, order);
    match a {
        Answer::Applied => {
            *out = [0, 0, 0];
            0
        }
        Answer::Refused {
            number,
            line,
            column: byte,
        } => {
            *out = [number, line, byte];
            number
        }
    }
}

// Reads one line of a correction list: its millionths, and number, row, the name's start and length, decimals, flag; the start counts from 0.
pub fn pochahuic_list_line(line: &[u8], millionths: &mut i64, out: &mut [u64; 6]) -> u64
    ensures value { result ≡ (line_read line.now).number }
    ensures millionths_after { millionths.new ≡ (line_read line.now).millionths }
    ensures out_after { out.new ≡ line_numbers (line_read line.now) }
{
    let l = correction::read_list_line(line);
    *millionths = l.millionths;
    *out = [
        l.number,
        l.row,
        l.name.start as u64,
        l.name.len as u64,
        l.decimals,
        l.flag,
    ];
    l.number
}
