// Times and dates at a place of a word: one function for each part of the pattern.
ghost use Rattle.std.specs.Prelude.{false, ◌≤◌, length};
ghost use Rattle.rules.specs.Bytes.{digit, between};
ghost use Rattle.rules.specs.Values.{utc};
ghost use Rattle.rules.proofs.Machine.Patterns.{run, stop};
ghost use Rattle.rules.proofs.Machine.Words.{g_days, g_dated, g_time, g_minutes, g_seconds, g_zone, g_offset};
ghost use Rattle.classes.specs.Places.{part};
ghost use Rattle.forms.specs.Laid.{Behind, MonthTo, DateTo, StampTo, HourTo, MinuteTo, SecondTo, ClockTo, OffsetTo};
ghost use Rattle.forms.specs.Forms.{FormAt, time_of, stamped, date_of, on, at_second, g_decimals, in_month_at};

use crate::ends::{counted, digits};
use crate::{ABSENT, Clock, Date, Form, Span, Stamp, Zone};
use classes::{Digit, byte_at, run_end};

// The zone of a time, behind its sign.
fn zone_offset(w: &[u8], stamp: Stamp, clock: Clock, west: bool, at: usize) -> Option<Form>
    requires at_in_bounds { at ≤ length w.now }
    requires offset_to { OffsetTo w.now stamp clock west at }
    ensures { FormAt (g_offset west (λ z. time_of w.now stamp clock z)) w.now at result }
{
    let hours = digits(w, at, 2)?;
    if hours.upto == w.len() {
        let zone = Zone::Offset(west, hours, ABSENT);
        return Some(Form::Moment(stamp, clock, zone));
    }
    if byte_at(w, hours.upto) != b':' {
        return None;
    }
    let minutes = digits(w, hours.upto + 1, 2)?;
    if minutes.upto != w.len() {
        return None;
    }
    let zone = Zone::Offset(west, hours, minutes);
    Some(Form::Moment(stamp, clock, zone))
}

// The end of a time behind its Z.
fn utc_end(w: &[u8], stamp: Stamp, clock: Clock, at: usize) -> Option<Form>
    requires at_in_bounds { at ≤ length w.now }
    requires behind { Behind (ClockTo w.now stamp clock) at }
    ensures { FormAt (stop (time_of w.now stamp clock utc)) w.now at result }
{
    if at != w.len() {
        return None;
    }
    Some(Form::Moment(stamp, clock, Zone::Utc))
}

// What ends a time: nothing, Z, or an offset.
fn zone_at(w: &[u8], stamp: Stamp, clock: Clock, at: usize) -> Option<Form>
    requires at_in_bounds { at ≤ length w.now }
    requires clock_to { ClockTo w.now stamp clock at }
    ensures { FormAt (g_zone (λ z. time_of w.now stamp clock z)) w.now at result }
{
    if at == w.len() {
        return Some(Form::Moment(stamp, clock, Zone::NoZone));
    }
    match w[at] {
        b'Z' | b'z' => utc_end(w, stamp, clock, at + 1),
        b'-' => zone_offset(w, stamp, clock, true, at + 1),
        b'+' => zone_offset(w, stamp, clock, false, at + 1),
        _ => None,
    }
}

// A time from the end of its whole seconds on.
fn decimals(
    w: &[u8],
    stamp: Stamp,
    hour: Span,
    minute: Span,
    second: Span,
    at: usize,
) -> Option<Form>
    requires at_in_bounds { at ≤ length w.now }
    requires second_to { SecondTo w.now stamp hour minute second at }
    ensures { FormAt (g_decimals (on w.now second) (at_second w.now stamp hour minute)) w.now at result }
{
    if byte_at(w, at) != b'.' {
        let clock = Clock {
            hour,
            minute,
            second,
            decimals: ABSENT,
        };
        return zone_at(w, stamp, clock, at);
    }
    let q = at + 1;
    let e = run_end::<Digit>(w, q);
    let clock = Clock {
        hour,
        minute,
        second,
        decimals: Span { from: q, upto: e },
    };
    zone_at(w, stamp, clock, e)
}

// A time from the end of its minutes on.
fn seconds(w: &[u8], stamp: Stamp, hour: Span, minute: Span, at: usize) -> Option<Form>
    requires at_in_bounds { at ≤ length w.now }
    requires minute_to { MinuteTo w.now stamp hour minute at }
    ensures { FormAt (g_seconds (at_second w.now stamp hour minute)) w.now at result }
{
    if byte_at(w, at) != b':' {
        let clock = Clock {
            hour,
            minute,
            second: ABSENT,
            decimals: ABSENT,
        };
        return zone_at(w, stamp, clock, at);
    }
    let second = digits(w, at + 1, 2)?;
    decimals(w, stamp, hour, minute, second, second.upto)
}

// A time from its minutes on.
pub fn minutes(w: &[u8], stamp: Stamp, hour: Span, at: usize) -> Option<Form>
    requires at_in_bounds { at ≤ length w.now }
    requires behind { Behind (HourTo w.now stamp hour) at }
    ensures { FormAt (g_minutes (on w.now hour) (stamped w.now stamp)) w.now at result }
{
    let minute = digits(w, at, 2)?;
    seconds(w, stamp, hour, minute, minute.upto)
}

// A time from its hour on.
fn time_at(w: &[u8], stamp: Stamp, at: usize) -> Option<Form>
    requires at_in_bounds { at ≤ length w.now }
    requires stamp_to { StampTo w.now stamp at }
    ensures { FormAt (g_time (stamped w.now stamp)) w.now at result }
{
    let hour = digits(w, at, 2)?;
    if byte_at(w, hour.upto) != b':' {
        return None;
    }
    minutes(w, stamp, hour, hour.upto + 1)
}

// What follows a date: nothing, or T and a time.
fn dated(w: &[u8], date: Date, at: usize) -> Option<Form>
    requires at_in_bounds { at ≤ length w.now }
    requires date_to { DateTo w.now date at }
    ensures { FormAt (g_dated (date_of w.now date)) w.now at result }
{
    if at == w.len() {
        return Some(Form::Day(date));
    }
    match w[at] {
        b'T' | b't' => time_at(w, Stamp::Dated(date), at + 1),
        _ => None,
    }
}

// A date from the day of its month on.
fn month_day(w: &[u8], month: Span, at: usize) -> Option<Form>
    requires at_in_bounds { at ≤ length w.now }
    requires behind { Behind (MonthTo w.now month) at }
    ensures { FormAt (run digit (between 1 2) (in_month_at w.now month)) w.now at result }
{
    let day = digits(w, at, 2)?;
    dated(w, Date::InMonth(month, day), day.upto)
}

// A date from the hyphen behind its year on, at the sixth byte.
pub fn days(w: &[u8]) -> Option<Form>
    requires { 5 ≤ length w.now }
    ensures { FormAt (g_days (part w.now 0 4)) w.now 5 result }
{
    let e = run_end::<Digit>(w, 5);
    if byte_at(w, e) == b'-' {
        let month = counted(5, e, 2)?;
        return month_day(w, month, e + 1);
    }
    let day = counted(5, e, 3)?;
    dated(w, Date::InYear(day), e)
}
