// A row of each shape at the start of the room that is lent; each part goes into the room that the part before it leaves.
ghost use Rattle.std.specs.Prelude.{[], ◌∷◌, ◌++◌, ◌≤◌, length};
ghost use Rattle.rules.specs.Table.{bytes};
ghost use Rattle.rows.specs.Rows.{longest_row, Wrote};

use crate::numbers::{encode_byte, encode_number};
use crate::{INTEGER, LAST, REAL, TIME, UNIT};
use words::Moment;

pub fn encode_span(out: &mut [u8], kind: u8, a: usize, b: usize) -> usize
    requires { 5 ≤ length out.old }
    ensures { Wrote (kind ∷ (bytes 2 a ++ bytes 2 b)) out.old out.new result }
{
    let n = encode_byte(out, kind);
    let m = n + encode_number::<2>(&mut out[n..], a as u64);
    let j = encode_number::<2>(&mut out[m..], b as u64);
    m + j
}

pub fn encode_integer(out: &mut [u8], v: u64) -> usize
    requires { 9 ≤ length out.old }
    ensures { Wrote (10 ∷ bytes 8 v) out.old out.new result }
{
    let n = encode_byte(out, INTEGER);
    let m = encode_number::<8>(&mut out[n..], v);
    n + m
}

pub fn encode_real(out: &mut [u8], number: u64, power: u64) -> usize
    requires { 11 ≤ length out.old }
    ensures { Wrote (11 ∷ (bytes 8 number ++ bytes 2 power)) out.old out.new result }
{
    let n = encode_byte(out, REAL);
    let m = n + encode_number::<8>(&mut out[n..], number);
    let k = encode_number::<2>(&mut out[m..], power);
    m + k
}

// Kind, parts, year, month, day.
fn encode_date(out: &mut [u8], x: Moment) -> usize
    requires { 6 ≤ length out.old }
    ensures { Wrote (12 ∷ x.parts ∷ (bytes 2 x.year ++ (x.month ∷ x.day ∷ []))) out.old out.new result }
{
    let n = encode_byte(out, TIME);
    let m = n + encode_byte(&mut out[n..], x.parts);
    let k = m + encode_number::<2>(&mut out[m..], u64::from(x.year));
    let j = k + encode_byte(&mut out[k..], x.month);
    let i = encode_byte(&mut out[j..], x.day);
    j + i
}

// Hour, minute, second, nanoseconds.
fn encode_clock(out: &mut [u8], x: Moment) -> usize
    requires { 7 ≤ length out.old }
    ensures { Wrote (x.hour ∷ x.minute ∷ x.second ∷ bytes 4 x.nanoseconds) out.old out.new result }
{
    let n = encode_byte(out, x.hour);
    let m = n + encode_byte(&mut out[n..], x.minute);
    let k = m + encode_byte(&mut out[m..], x.second);
    let j = encode_number::<4>(&mut out[k..], u64::from(x.nanoseconds));
    k + j
}

pub fn encode_moment(out: &mut [u8], x: Moment, offset: u64) -> usize
    requires { longest_row ≤ length out.old }
    ensures { Wrote (12 ∷ x.parts ∷ (bytes 2 x.year ++ (x.month ∷ x.day ∷ x.hour ∷ x.minute ∷ x.second ∷ (bytes 4 x.nanoseconds ++ (bytes 2 offset ++ (x.mark ∷ [])))))) out.old out.new result }
{
    let n = encode_date(out, x);
    let m = n + encode_clock(&mut out[n..], x);
    let k = m + encode_number::<2>(&mut out[m..], offset);
    let j = encode_byte(&mut out[k..], x.mark);
    k + j
}

pub fn encode_unit(out: &mut [u8], op: u8, a: usize, b: usize, exponent: u8) -> usize
    requires { 7 ≤ length out.old }
    ensures { Wrote (15 ∷ op ∷ (bytes 2 a ++ (bytes 2 b ++ (exponent ∷ [])))) out.old out.new result }
{
    let n = encode_byte(out, UNIT);
    let m = n + encode_byte(&mut out[n..], op);
    let k = m + encode_number::<2>(&mut out[m..], a as u64);
    let j = k + encode_number::<2>(&mut out[k..], b as u64);
    let i = encode_byte(&mut out[j..], exponent);
    j + i
}

pub fn encode_last(out: &mut [u8], a: usize) -> usize
    requires { 3 ≤ length out.old }
    ensures { Wrote (99 ∷ bytes 2 a) out.old out.new result }
{
    let n = encode_byte(out, LAST);
    let m = encode_number::<2>(&mut out[n..], a as u64);
    n + m
}
