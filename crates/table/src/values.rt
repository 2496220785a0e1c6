// The value of a row: numbers in their range and as they are held, dates and times that there are, with a mark that their zone can have.
ghost use Rattle.std.specs.Prelude.{◌≡◌};
ghost use Rattle.rules.proofs.Machine.Checks.{within_test, real_test, dated_test, mark_test, timed_test, undated_test, untimed_test, moment_test, value_test};
ghost use Rattle.words.specs.Says.{whole, real_of, moment_of};
ghost use Rattle.rows.specs.Rows.{row_of};

use rows::Row;
use words::{Moment, NO_ZONE, PAST_INTEGER, PAST_NUMBER, Real, SIGNED_ZONE, month_length};

// Past every power of ten that is held.
const PAST_POWER: u64 = 1000;

// Past every exponent of a unit.
const PAST_EXPONENT: u64 = 100;

// Past every offset, in minutes.
const PAST_OFFSET: u64 = 780;

// Below a limit either side of zero, and no minus zero.
fn within(minus: bool, size: u64, limit: u64) -> bool
    ensures { result ≡ within_test limit (whole minus size) }
{
    (size < limit) & ((size != 0) | !minus)
}

fn real_held(x: Real) -> bool
    ensures { result ≡ real_test (real_of x) }
{
    let a = within(x.minus, x.number, PAST_NUMBER);
    let b = within(x.below, x.power as u64, PAST_POWER);
    a & (b & ((x.number % 10 != 0) | ((x.number == 0) & (x.power == 0))))
}

fn dated(x: Moment) -> bool
    ensures { result ≡ dated_test (moment_of x) }
{
    let most = month_length(x.year as u64, x.month as u64);
    (0 < x.year)
        & ((x.year < 10000)
            & ((0 < x.month) & ((x.month < 13) & ((0 < x.day) & (x.day as u64 <= most)))))
}

// A signed zone, or none or Z with offset 0.
fn zone_marked(x: Moment) -> bool
    ensures { result ≡ mark_test (moment_of x) }
{
    (x.mark == SIGNED_ZONE) | ((x.mark < SIGNED_ZONE) & (x.offset == 0))
}

fn timed(x: Moment) -> bool
    ensures { result ≡ timed_test (moment_of x) }
{
    let a = within(x.west, x.offset as u64, PAST_OFFSET);
    let z = zone_marked(x);
    (x.hour < 24)
        & ((x.minute < 60) & ((x.second < 60) & ((x.nanoseconds < 1_000_000_000) & (a & z))))
}

fn undated(x: Moment) -> bool
    ensures { result ≡ undated_test (moment_of x) }
{
    (x.year == 0) & ((x.month == 0) & (x.day == 0))
}

fn untimed(x: Moment) -> bool
    ensures { result ≡ untimed_test (moment_of x) }
{
    (x.hour == 0)
        & ((x.minute == 0)
            & ((x.second == 0)
                & ((x.nanoseconds == 0) & ((!x.west & (x.offset == 0)) & (x.mark == NO_ZONE)))))
}

fn moment_held(x: Moment) -> bool
    ensures { result ≡ moment_test (moment_of x) }
{
    let d = dated(x);
    let u = undated(x);
    let t = timed(x);
    let n = untimed(x);
    ((x.parts == 1) & (d & n)) | (((x.parts == 2) & (u & t)) | ((x.parts == 3) & (d & t)))
}

pub fn good_value(row: Row) -> bool
    ensures { result ≡ value_test (row_of row) }
{
    match row {
        Row::Integer(m, v) => within(m, v, PAST_INTEGER),
        Row::Float(x) => real_held(x),
        Row::Time(x) => moment_held(x),
        Row::Unit(_, _, _, m, v) => within(m, v, PAST_EXPONENT),
        _ => true,
    }
}
