// The profiles of a file: their rows, and their station values.
ghost use Rattle.std.specs.Prelude.{◌≡◌, ◌<◌, length, IfSome};
ghost use Rattle.format.specs.Opened.{opened_of};
ghost use Rattle.profiles.specs.Inner.Profiles.{RowLines, with_noted, RunRead};
ghost use Rattle.profiles.specs.Inner.Values.{RunFound, ValuesStand, StationRead, ProfileRead};

use crate::values::{ValueAt, column_value, header_value};
use columns::read_columns;
use format::{FileKind, Opened, Refusal};
use grid::{line_end, line_start};
use rows::{NO_KEYS, same_keys};
use rules::open_file;
use text::refusals;

// The rows of a profile: the first row, and how many there are.
#[derive(Clone, Copy)]
pub struct Run {
    pub first: u64,
    pub rows: u64,
}

// The run with one more row.
fn noted(run: Option<Run>, row: u64) -> Run
    requires { IfSome run (λ r. r.rows < row) }
    ensures { result ≡ with_noted run row }
{
    match run {
        Some(r) => Run {
            first: r.first,
            rows: r.rows + 1,
        },
        None => Run {
            first: row,
            rows: 1,
        },
    }
}

// The rows of profile k among the n data lines from start on: a row with the key of the row before is in its profile, any other begins the next.
pub fn run_of<'a>(s: &'a [u8], start: usize, n: u64, kinds: &'a [u8], k: u64) -> Option<Run>
    requires { RowLines s.now kinds.now start n × (0 < length kinds.now) }
    ensures { RunRead s.now kinds.now start n k result }
{
    let mut at = start;
    let mut label: u64 = 0;
    let mut last = NO_KEYS;
    let mut run = None;
    for row in 0..n {
        let e = line_end(s, at);
        let keys = text::judge_cells(s, at, e, b',', kinds).keys;
        if row == 0 || !same_keys(s, last, keys) {
            label += 1;
        }
        if label == k {
            run = Some(noted(run, row + 1));
        }
        last = keys;
        at = e + 1;
    }
    run
}

// The rows of profile k of an opened file that is not refused: a CTD file is one profile.
fn run_in(s: &[u8], o: Opened, k: u64) -> Option<Run>
    requires { (o ≡ opened_of s.now) × (o.checked.number ≡ 0) }
    ensures { RunFound s.now o.checked.rows k result }
{
    let rows = o.checked.rows;
    match o.checked.kind {
        FileKind::Bottle => {
            // The names line of an accepted file breaks no rule.
            let c = read_columns(s, o.names, true).unwrap();
            run_of(s, o.first, rows, &c.kinds[..c.count], k)
        }
        _ if k == 1 => Some(Run { first: 1, rows }),
        _ => None,
    }
}

// A profile: its rows, where its first row's line starts, and its file's kind and where that file's names line and headers stand.
#[derive(Clone, Copy)]
pub struct ProfileAt {
    pub kind: FileKind,
    pub headers: usize,
    pub names: usize,
    pub at: usize,
    pub first: u64,
    pub rows: u64,
}

// Profile k of a file that is checked first.
pub fn profile_at(s: &[u8], k: u64) -> Result<ProfileAt, Refusal>
    ensures { ProfileRead s.now k result }
{
    let o = open_file(s).accepted()?;
    let r = run_in(s, o, k).ok_or(Refusal::nowhere(refusals::NO_SUCH_PLACE))?;
    Ok(ProfileAt {
        kind: o.checked.kind,
        headers: o.headers,
        names: o.names,
        at: line_start(s, o.first, (r.first - 1) as usize),
        first: r.first,
        rows: r.rows,
    })
}

// The value of a name in a profile: of a column in the first row of a bottle file's, of a header in a CTD file.
pub fn station_value<'a>(s: &'a [u8], p: ProfileAt, name: &'a [u8]) -> Option<ValueAt>
    requires { ValuesStand s.now p }
    ensures { StationRead s.now p name.now result }
{
    match p.kind {
        FileKind::Bottle => column_value(s, p.names, p.at, name),
        _ => header_value(s, p.headers, p.names, name),
    }
}
