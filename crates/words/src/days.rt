// Days of the calendar: of a year and a day of it, or of a year, a month and a day.
ghost use Rattle.std.specs.Prelude.{◌≡◌, ◌≤◌};
ghost use Rattle.rules.specs.Values.{leap, month_length, day_of};
ghost use Rattle.forms.specs.Forms.{date_of};
ghost use Rattle.words.specs.Days.{Before, YearDay, MonthDay, day_if_any, year_of};

use crate::numbers::number_of;
use forms::{Date, Span};

// A day; all 0 where there is no date.
#[derive(Clone, Copy)]
pub struct Day {
    pub year: u16,
    pub month: u8,
    pub day: u8,
}

fn is_leap(year: u64) -> bool
    ensures { result ≡ leap year }
{
    (year % 4 == 0) & (year % 100 != 0) | (year % 400 == 0)
}

// The days of a month; 0 where there is no such month. But for February, months of 31 and of 30 days take turns, and begin anew with August.
pub fn month_length(year: u64, month: u64) -> u64
    ensures { (result ≡ month_length year month) × (result ≤ 31) }
{
    if month == 0 {
        return 0;
    }
    if 12 < month {
        return 0;
    }
    if month != 2 {
        return 30 + (month + month / 8) % 2;
    }
    if is_leap(year) { 29 } else { 28 }
}

// The days of a year before a month: 30 for each month that has gone and a 31st where it has one, less what February lacks of 30.
fn days_before(year: u64, month: u64) -> u64
    requires { (1 ≤ month) × (month ≤ 12) }
    ensures { Before year month result }
{
    let days = 30 * (month - 1) + (month + month / 8) / 2;
    if month < 3 {
        return days;
    }
    if is_leap(year) { days - 1 } else { days - 2 }
}

// A year and a day of it. No month has more than 31 days, and all of them lack 7 days of that at most, so that the month is the guessed one or the next.
fn day_in_year(year: u64, n: u64) -> Option<Day>
    requires { year ≤ 9999 }
    ensures { YearDay year n result }
{
    if year == 0 {
        return None;
    }
    if n == 0 {
        return None;
    }
    let d = days_before(year, 12);
    if d + 31 < n {
        return None;
    }
    let m = (n - 1) / 31 + 1;
    let a = days_before(year, m);
    let e = a + month_length(year, m);
    if n <= e {
        return Some(Day {
            year: year as u16,
            month: m as u8,
            day: (n - a) as u8,
        });
    }
    Some(Day {
        year: year as u16,
        month: (m + 1) as u8,
        day: (n - e) as u8,
    })
}

// A year, a month and a day of the month.
fn day_in_month(year: u64, m: u64, d: u64) -> Option<Day>
    requires { year ≤ 9999 }
    ensures { MonthDay year m d result }
{
    if year == 0 {
        return None;
    }
    if m == 0 {
        return None;
    }
    if 12 < m {
        return None;
    }
    if d == 0 {
        return None;
    }
    if month_length(year, m) < d {
        return None;
    }
    Some(Day {
        year: year as u16,
        month: m as u8,
        day: d as u8,
    })
}

// The day of a date, of which the year stands in the first four bytes.
pub fn day_of(w: &[u8], date: Date) -> Option<Day>
    requires { year_of (date_of w.now date) ≤ 9999 }
    ensures { day_of (date_of w.now date) ≡ day_if_any result }
{
    let y = number_of(w, Span { from: 0, upto: 4 });
    match date {
        Date::InYear(n) => {
            let k = number_of(w, n);
            day_in_year(y, k)
        }
        Date::InMonth(m, d) => {
            let j = number_of(w, m);
            let k = number_of(w, d);
            day_in_month(y, j, k)
        }
    }
}
