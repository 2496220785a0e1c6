// Times: the hour, minute, second and zone of a day or of none.
ghost use Rattle.std.specs.Prelude.{◌≡◌, cond, ◌^◌, ◌≤◌, ◌<◌};
ghost use Rattle.rules.specs.Bytes.{All, digit};
ghost use Rattle.rules.specs.Values.{a_date, a_date_time, number, signed_zone};
ghost use Rattle.forms.specs.Forms.{on, date_of, zone_of, clock_of, time_of};
ghost use Rattle.words.specs.declared.Value.TheVariants.{Time};
ghost use Rattle.words.specs.Says.{Worth};
ghost use Rattle.words.specs.Days.{day_is, year_of};
ghost use Rattle.words.specs.Times.{nanos_of, with_offset, InZone, Timed, InDigits};

use crate::days::{Day, day_of};
use crate::numbers::{bytes_of, number_of, number_onto};
use crate::reals::without_zeros;
use crate::{Moment, NO_ZONE, SIGNED_ZONE, Unfit, Value, ZONE_Z};
use forms::{Clock, Date, Span, Stamp, Zone};

// A power where it counts, and 1 where it does not.
fn factor(counts: bool, power: u64) -> u64
    ensures { result ≡ cond counts power 1 }
{
    if counts { power } else { 1 }
}

// 10^e: the product of those of 10, 10^2, 10^4 and 10^8 whose exponents add up to e. A loop would be shorter, but the compiler may turn it into a table.
fn ten_to(e: usize) -> u64
    requires { e ≤ 9 }
    ensures { (result ≡ 10 ^ e) × (result ≤ 1000000000) }
{
    let ten = factor(e % 2 == 1, 10);
    let square = factor(e / 2 % 2 == 1, 100);
    let fourth = factor(e / 4 % 2 == 1, 10_000);
    let eighth = factor(e / 8 == 1, 100_000_000);
    ten * square * fourth * eighth
}

// The nanoseconds of the decimals of a second, unless these are too many.
fn nanoseconds(ds: &[u8]) -> Option<u32>
    requires { All digit ds.now }
    ensures { result ≡ nanos_of ds.now }
{
    let k = without_zeros(ds);
    if 9 < k {
        return None;
    }
    let n = number_onto(0, &ds[0..k], 1_000_000_000);
    let t = ten_to(9 - k);
    Some((n * t) as u32)
}

// A moment with this offset and this mark.
fn in_zone(local: Moment, west: bool, offset: u16, mark: u8) -> Value
    ensures { result ≡ Time (with_offset local west offset mark) }
{
    let mut moment = local;
    moment.west = west;
    moment.offset = offset;
    moment.mark = mark;
    Value::Time(moment)
}

// A moment in a signed zone, whose sign covers both its hour and its minute.
fn offset_by(
    w: &[u8],
    local: Moment,
    west: bool,
    hours: Span,
    minutes: Span,
) -> Result<Value, Unfit>
    ensures { InZone local (signed_zone west (number (on w.now hours)) (number (on w.now minutes))) result }
{
    let h = number_of(w, hours);
    let m = number_of(w, minutes);
    if 12 < h {
        return Err(Unfit::PastLimit);
    }
    if 59 < m {
        return Err(Unfit::PastLimit);
    }
    let offset = h * 60 + m;
    let minus = west & (offset != 0);
    Ok(in_zone(local, minus, offset as u16, SIGNED_ZONE))
}

// A moment, whatever its zone was, in the zone that is written. No zone and Z both mean offset 0: the mark tells them apart.
fn zoned(w: &[u8], local: Moment, zone: Zone) -> Result<Value, Unfit>
    ensures { InZone local (zone_of w.now zone) result }
{
    match zone {
        Zone::NoZone => Ok(in_zone(local, false, 0, NO_ZONE)),
        Zone::Utc => Ok(in_zone(local, false, 0, ZONE_Z)),
        Zone::Offset(west, hours, minutes) => offset_by(w, local, west, hours, minutes),
    }
}

// A day and a time of it.
pub fn timed(w: &[u8], parts: u8, day: Day, clock: Clock, zone: Zone) -> Result<Value, Unfit>
    requires { All digit (on w.now clock.decimals) }
    ensures { Timed parts (day_is day) (clock_of w.now clock (zone_of w.now zone)) result }
{
    let h = number_of(w, clock.hour);
    let m = number_of(w, clock.minute);
    let s = number_of(w, clock.second);
    let Some(n) = nanoseconds(bytes_of(w, clock.decimals)) else {
        return Err(Unfit::PastLimit);
    };
    if 23 < h {
        return Err(Unfit::PastLimit);
    }
    if 59 < m {
        return Err(Unfit::PastLimit);
    }
    if 59 < s {
        return Err(Unfit::PastLimit);
    }
    let local = Moment {
        parts,
        year: day.year,
        month: day.month,
        day: day.day,
        hour: h as u8,
        minute: m as u8,
        second: s as u8,
        nanoseconds: n,
        west: false,
        offset: 0,
        mark: NO_ZONE,
    };
    zoned(w, local, zone)
}

// A day without a time.
pub fn dated(w: &[u8], date: Date) -> Result<Value, Unfit>
    requires { year_of (date_of w.now date) ≤ 9999 }
    ensures { Worth (a_date (date_of w.now date)) result }
{
    let Some(day) = day_of(w, date) else {
        return Err(Unfit::PastLimit);
    };
    Ok(Value::Time(Moment {
        parts: 1,
        year: day.year,
        month: day.month,
        day: day.day,
        hour: 0,
        minute: 0,
        second: 0,
        nanoseconds: 0,
        west: false,
        offset: 0,
        mark: NO_ZONE,
    }))
}

// A date with a time.
fn dated_time(w: &[u8], date: Date, clock: Clock, zone: Zone) -> Result<Value, Unfit>
    requires { (year_of (date_of w.now date) ≤ 9999) × All digit (on w.now clock.decimals) }
    ensures { Worth (a_date_time (date_of w.now date) (clock_of w.now clock (zone_of w.now zone))) result }
{
    let Some(day) = day_of(w, date) else {
        return Err(Unfit::PastLimit);
    };
    timed(w, 3, day, clock, zone)
}

// A time, with a date or without.
pub fn stamped(w: &[u8], stamp: Stamp, clock: Clock, zone: Zone) -> Result<Value, Unfit>
    requires { InDigits (time_of w.now stamp clock (zone_of w.now zone)) }
    ensures { Worth (time_of w.now stamp clock (zone_of w.now zone)) result }
{
    match stamp {
        Stamp::Undated => timed(
            w,
            2,
            Day {
                year: 0,
                month: 0,
                day: 0,
            },
            clock,
            zone,
        ),
        Stamp::Dated(date) => dated_time(w, date, clock, zone),
    }
}
