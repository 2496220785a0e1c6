// The numbers that digits stand for, and integers, decimal and based.
ghost use Rattle.std.specs.Prelude.{◌≡◌, ◌-◌, ◌≤◌, ◌<◌, min};
ghost use Rattle.rules.specs.Values.{onto, number, signed, worth, a_whole, a_based};
ghost use Rattle.forms.specs.Forms.{on};
ghost use Rattle.words.specs.Says.{Worth};
ghost use Rattle.words.specs.Parts.{based};

use crate::{Unfit, Value};
use classes::{folded, is_digit, part};
use forms::Span;

// 2^63, past every integer that is kept, and the largest of those.
pub const PAST_INTEGER: u64 = 0x8000_0000_0000_0000;

const LARGEST_INTEGER: u64 = 0x7FFF_FFFF_FFFF_FFFF;

// The bytes of a span, as far as there are any.
pub fn bytes_of(w: &[u8], span: Span) -> &[u8]
    ensures { result.now ≡ on w.now span }
{
    part(w, span.from, span.upto)
}

// The value of a digit.
fn digit_value(b: u8) -> u64
    ensures { (result ≡ b - 48) × (result < 256) }
{
    if b < b'0' { 0 } else { (b - b'0') as u64 }
}

// The number that digits stand for after the digits that gave n, or the cap where it is more.
pub fn number_onto(first: u64, ds: &[u8], cap: u64) -> u64
    requires { (255 ≤ cap) × (first ≤ cap) }
    ensures { result ≡ min cap (onto first ds.now) }
{
    let mut n = first;
    for b in ds {
        let d = digit_value(*b);
        if (cap - d) / 10 < n {
            return cap;
        }
        n = n * 10 + d;
    }
    n
}

// An integer.
pub fn whole(negative: bool, ds: &[u8]) -> Result<Value, Unfit>
    ensures { Worth (a_whole (signed negative (number ds.now))) result }
{
    let n = number_onto(0, ds, PAST_INTEGER);
    if n == PAST_INTEGER {
        return Err(Unfit::PastLimit);
    }
    Ok(Value::Integer(negative & (n != 0), n))
}

// The number of a span, or 10,000 where it is more, as no part of a date or time may be. Not inlined: a date and time has seven.
#[inline(never)]
pub fn number_of(w: &[u8], span: Span) -> u64
    ensures { result ≡ min 10000 (number (on w.now span)) }
{
    number_onto(0, bytes_of(w, span), 10_000)
}

// The worth of a letter: A is 10.
fn letter_value(b: u8) -> u64
    ensures { (result ≡ b - 55) × (result < 256) }
{
    if b < 55 { 0 } else { (b - 55) as u64 }
}

// The worth of an extended digit: A and a are 10.
fn worth_of(b: u8) -> u64
    ensures { (result ≡ worth b) × (result < 256) }
{
    if is_digit(b) {
        return digit_value(b);
    }
    letter_value(folded(b))
}

// The number of extended digits, unless it is past the largest integer or a digit is not below the radix.
fn in_base(radix: u64, ds: &[u8]) -> Option<u64>
    requires { (2 ≤ radix) × (radix ≤ 16) }
    ensures { result ≡ based radix ds.now }
{
    let mut n = 0;
    for b in ds {
        let d = worth_of(*b);
        if radix <= d {
            return None;
        }
        if (LARGEST_INTEGER - d) / radix < n {
            return None;
        }
        n = n * radix + d;
    }
    Some(n)
}

// A based integer.
pub fn in_radix(radix: &[u8], negative: bool, ds: &[u8]) -> Result<Value, Unfit>
    ensures { Worth (a_based (number radix.now) negative ds.now) result }
{
    let b = number_onto(0, radix, 255);
    if b < 2 {
        return Err(Unfit::PastLimit);
    }
    if 16 < b {
        return Err(Unfit::PastLimit);
    }
    let Some(n) = in_base(b, ds) else {
        return Err(Unfit::PastLimit);
    };
    Ok(Value::Based(negative & (n != 0), n))
}
