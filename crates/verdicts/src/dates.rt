// The Gregorian calendar. Comparisons by hand: with `contains` of a range the proof of is_day did not close, and with an arm 4 | 6 | 9 | 11 that of month_days.
ghost use Rattle.std.specs.Prelude.{◌≡◌};
ghost use Rattle.verdicts.specs.Dates.{is_leap, month_days, is_day, is_date};

fn is_leap(y: u64) -> bool
    ensures { result ≡ is_leap y }
{
    y % 4 == 0 && (y % 100 != 0 || y % 400 == 0)
}

fn month_days(y: u64, m: u64) -> u64
    ensures { result ≡ month_days y m }
{
    if m == 2 {
        if is_leap(y) { 29 } else { 28 }
    } else if (m == 4) | (m == 6) | (m == 9) | (m == 11) {
        30
    } else {
        31
    }
}

fn is_day(y: u64, m: u64, d: u64) -> bool
    ensures { result ≡ is_day y m d }
{
    (1 <= y) & (1 <= m) & (m <= 12) & (1 <= d) & (d <= month_days(y, m))
}

// Whether a number YYYYMMDD is a day.
pub fn is_date(n: u64) -> bool
    ensures { result ≡ is_date n }
{
    is_day(n / 10000, n / 100 % 100, n % 100)
}
