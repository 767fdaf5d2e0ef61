// The lines of the report. Each call is handed the place and answers the next one: a page that holds the lent room as a field would owe, at each of its calls, a
// further clause that it still lends the same room.
ghost use Rattle.std.specs.Prelude.{◌≡◌};
ghost use Rattle.format.specs.Records.{profile_of};
ghost use Rattle.pages.specs.Pages.{page, lay};
ghost use Rattle.report_text.specs.Report.{field, number as number_in, kind_field, refused_line, accepted_line, station_text, profile_line, profile_lines};

use exchange::{Checked, FileKind};
use pages::{put, put_number};

fn number_field(room: &mut [u8], from: usize, n: u64) -> usize
    ensures { page room.new result ≡ lay (page room.old from) (number_in n) }
{
    let at = put(room, from, b"\t");
    put_number(room, at, n)
}

fn text_field<'a>(room: &mut [u8], from: usize, t: &'a [u8]) -> usize
    ensures { page room.new result ≡ lay (page room.old from) (field t.now) }
{
    let at = put(room, from, b"\t");
    put(room, at, t)
}

// The `refused` line.
pub fn put_refused(room: &mut [u8], c: Checked) -> usize
    ensures { page room.new result ≡ lay (page room.old 0) (refused_line c) }
{
    let a = put(room, 0, b"refused");
    let b = number_field(room, a, c.number);
    let d = number_field(room, b, c.line);
    let e = number_field(room, d, c.column);
    put(room, e, b"\n")
}

fn kind_field(room: &mut [u8], at: usize, kind: FileKind) -> usize
    ensures { page room.new result ≡ lay (page room.old at) (kind_field kind) }
{
    match kind {
        FileKind::Bottle => text_field(room, at, b"BOTTLE"),
        FileKind::Ctd => text_field(room, at, b"CTD"),
        FileKind::Unknown => at,
    }
}

// The `accepted` line.
pub fn put_accepted(room: &mut [u8], c: Checked) -> usize
    ensures { page room.new result ≡ lay (page room.old 0) (accepted_line c) }
{
    let a = put(room, 0, b"accepted");
    let b = kind_field(room, a, c.kind);
    let d = number_field(room, b, c.columns);
    let e = number_field(room, d, c.rows);
    let f = number_field(room, e, c.profiles);
    let g = number_field(room, f, c.missing);
    put(room, g, b"\n")
}

fn station_field<'a>(file: &'a [u8], k: u64, name: &'a [u8], room: &mut [u8], from: usize) -> usize
    ensures { page room.new result ≡ lay (page room.old from) (field (station_text file.now k name.now)) }
{
    let mut refusal = [0u64; 3];
    text_field(room, from, exchange::station(file, k, name, &mut refusal))
}

// The `profile` line of profile k.
fn put_profile(file: &[u8], k: u64, room: &mut [u8], from: usize) -> usize
    ensures { page room.new result ≡ lay (page room.old from) (profile_line file.now k (profile_of file.now k)) }
{
    let p = exchange::profile(file, k);
    let a = put(room, from, b"profile");
    let b = number_field(room, a, p.first);
    let c = number_field(room, b, p.rows);
    let d = station_field(file, k, b"EXPOCODE", room, c);
    let e = station_field(file, k, b"STNNBR", room, d);
    let f = number_field(room, e, p.castno);
    put(room, f, b"\n")
}

// The `profile` lines of the first n profiles.
pub fn put_profiles(file: &[u8], n: u64, room: &mut [u8], from: usize) -> usize
    ensures { page room.new result ≡ lay (page room.old from) (profile_lines file.now n) }
{
    let mut at = from;
    for k in 0..n {
        at = put_profile(file, k + 1, room, at);
    }
    at
}
