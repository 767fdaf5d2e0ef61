// The answers. Each call puts its line at the end of the output, without the line feed.
use crate::by_place::{answer_column, answer_open, answer_rows};
use crate::crc::crc_of;
use crate::puts::Page;
use crate::request::{number_in, signed_in, word};
use crate::tables::{answer_flags, answer_values};
use crate::walks::answer_walk;
use correction::{Answer, Order};
use exchange::CastTime;

fn answer_check(file: &[u8], out: &mut Page) {
    let c = exchange::check(file);
    if c.number != 0 {
        return out.refused(c.number, c.line, c.column);
    }
    out.put(b"accepted");
    out.counts(c);
}

fn answer_header(file: &[u8], k: u64, out: &mut Page) {
    let h = exchange::header_place(file, k);
    if h.number != 0 {
        return out.refused(h.number, h.line, h.column);
    }
    out.put(b"header");
    out.span(h.name);
    out.span(h.value);
}

fn answer_profile(file: &[u8], k: u64, out: &mut Page) {
    let p = exchange::profile(file, k);
    if p.number != 0 {
        return out.refused(p.number, p.line, p.column);
    }
    out.put(b"profile");
    out.field(p.first);
    out.field(p.rows);
    out.field(p.castno);
    out.field(p.date);
    match p.time {
        CastTime::Given { hour, minute } => {
            out.put(b" given");
            out.field(hour);
            out.field(minute);
        }
        CastTime::Missing => out.put(b" missing"),
    }
}

fn answer_correct(line: &[u8], file: &mut [u8], out: &mut Page) {
    let order = Order {
        row: number_in(line, 1),
        column: number_in(line, 2),
        millionths: signed_in(line, 3),
        decimals: number_in(line, 4),
        flag: number_in(line, 5),
    };
    match correction::correct(file, order) {
        Answer::Applied => {
            out.put(b"applied");
            out.crc_field(crc_of(file));
        }
        Answer::Refused {
            number,
            line,
            column,
        } => out.refused(number, line, column),
    }
}

fn answer_line(line: &[u8], out: &mut Page) {
    let l = correction::read_list_line(line);
    if l.number != 0 {
        return out.refused(l.number, 0, 0);
    }
    out.put(b"line");
    out.field(l.row);
    out.span(l.name);
    out.signed_field(l.millionths);
    out.field(l.decimals);
    out.field(l.flag);
}

fn answer_report(file: &[u8], page: &mut [u8], out: &mut Page) {
    let n = report_text::report(file, page);
    out.put(b"report");
    out.crc_field(crc_of(&page[..n.min(page.len())]));
    out.field(n as u64);
}

// Answers the request of a line on its bytes. A report is laid out on the page, which is lent, since clearing one for each takes longer than the report of a small refused file.
pub fn answer(line: &[u8], file: &mut [u8], page: &mut [u8], out: &mut Page) {
    let n = number_in(line, 1);
    let m = number_in(line, 2);
    match word(line, 0) {
        b"check" => answer_check(file, out),
        b"cell" => out.place(b"cell", exchange::cell_place(file, n, m)),
        b"decimal" => out.reading(exchange::decimal(file, n, m)),
        b"flag" => out.flagged(exchange::flag(file, n, m)),
        b"profile" => answer_profile(file, n, out),
        b"correct" => answer_correct(line, file, out),
        b"line" => answer_line(file, out),
        b"report" => answer_report(file, page, out),
        b"open" => answer_open(file, out),
        b"name" => out.place(b"name", exchange::name_place(file, n)),
        b"unit" => out.place(b"unit", exchange::unit_place(file, n)),
        b"header" => answer_header(file, n, out),
        b"values" => answer_values(line, file, out),
        b"flags" => answer_flags(line, file, out),
        b"rows" => answer_rows(file, n, out),
        b"column" => answer_column(file, n, out),
        b"walk" => answer_walk(file, out),
        _ => out.put(b"unknown"),
    }
}
