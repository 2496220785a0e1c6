// The weekday of a date, by arithmetic.
ghost use Rattle.std.specs.Prelude.{◌≡◌};
ghost use Rattle.book.specs.Dates.{weekday_by};

// 1 Monday to 7 Sunday. Years are counted as though they began with March: then the day that leap years have more is the last of its year,
// and months before one make 153 days in every five. 400 years are whole weeks; with that many more no date is too early.
pub fn weekday(year: u16, month: u8, day: u8) -> usize
    ensures { result ≡ weekday_by year month day }
{
    let m = u64::from(month) + 9;
    let y = u64::from(year) + 399 + m / 12;
    let n = 365 * y + y / 4 - y / 100 + y / 400 + (153 * (m % 12) + 2) / 5 + u64::from(day);
    1 + ((n + 1) % 7) as usize
}
