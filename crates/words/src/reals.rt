// Reals: a whole number without trailing zeros, times a power of ten.
ghost use Rattle.std.specs.Prelude.{◌≡◌, cond, ◌+◌, ◌≤◌, length};
ghost use Rattle.rules.specs.Reading.{longest};
ghost use Rattle.rules.specs.Values.{number, signed, a_decimal};
ghost use Rattle.words.specs.Says.{Worth};
ghost use Rattle.words.specs.Parts.{Significant, Finished, Scaled};

use crate::numbers::number_onto;
use crate::{Real, Unfit, Value};

// 18 digits at most, and one more than that.
const LARGEST_NUMBER: u64 = 999_999_999_999_999_999;

pub const PAST_NUMBER: u64 = 1_000_000_000_000_000_000;

const LARGEST_POWER: u64 = 999;

// What an exponent is held to: no digits of a word make up for it.
const PAST_SCALE: u64 = 1_000_000;

// How many digits are left without the zeros that end them.
pub fn without_zeros(s: &[u8]) -> usize
    ensures { Significant s.now result }
{
    match s.iter().rposition(|b| *b != b'0') {
        Some(i) => i + 1,
        None => 0,
    }
}

// What an exponent adds to a power that is raised otherwise.
fn raised(below: bool, scale: u64, by: u64) -> u64
    requires { (scale ≤ 1000000) × (by ≤ 200000) }
    ensures { result ≡ by + cond below 0 scale }
{
    if below { by } else { by + scale }
}

// What an exponent takes from a power that is lowered otherwise.
fn lowered(below: bool, scale: u64, by: u64) -> u64
    requires { (scale ≤ 1000000) × (by ≤ 200000) }
    ensures { result ≡ by + cond below scale 0 }
{
    if below { by + scale } else { by }
}

// The real of a number, held to 10^18, and a power, as what raises it and what lowers it.
fn finish(negative: bool, m: u64, plus: u64, minus: u64) -> Result<Value, Unfit>
    ensures { Finished negative m plus minus result }
{
    if m == 0 {
        return Ok(Value::Float(Real {
            minus: false,
            number: 0,
            below: false,
            power: 0,
        }));
    }
    if LARGEST_NUMBER < m {
        return Err(Unfit::PastLimit);
    }
    if plus < minus {
        let p = minus - plus;
        if LARGEST_POWER < p {
            return Err(Unfit::PastLimit);
        }
        return Ok(Value::Float(Real {
            minus: negative,
            number: m,
            below: true,
            power: p as u16,
        }));
    }
    let p = plus - minus;
    if LARGEST_POWER < p {
        return Err(Unfit::PastLimit);
    }
    Ok(Value::Float(Real {
        minus: negative,
        number: m,
        below: false,
        power: p as u16,
    }))
}

// The same, of an exponent held to a million, which decides like the written one where the digits are fewer.
fn scaled(
    negative: bool,
    m: u64,
    below: bool,
    scale: u64,
    up: u64,
    down: u64,
) -> Result<Value, Unfit>
    requires { (scale ≤ 1000000) × (up ≤ 200000) × (down ≤ 200000) }
    ensures { Scaled negative m below scale up down result }
{
    let plus = raised(below, scale, up);
    let minus = lowered(below, scale, down);
    finish(negative, m, plus, minus)
}

// A real of the digits before and behind the period, and an exponent.
pub fn decimal(negative: bool, ds: &[u8], fs: &[u8], below: bool, x: &[u8]) -> Result<Value, Unfit>
    requires { (length ds.now ≤ longest) × (length fs.now ≤ longest) }
    ensures { Worth (a_decimal negative ds.now fs.now (signed below (number x.now))) result }
{
    let scale = number_onto(0, x, PAST_SCALE);
    let down = fs.len();
    let r = without_zeros(fs);
    if r == 0 {
        let k = without_zeros(ds);
        let m = number_onto(0, &ds[0..k], PAST_NUMBER);
        let up = ds.len() - k + down;
        return scaled(negative, m, below, scale, up as u64, down as u64);
    }
    let h = number_onto(0, ds, PAST_NUMBER);
    let m = number_onto(h, &fs[0..r], PAST_NUMBER);
    scaled(negative, m, below, scale, (down - r) as u64, down as u64)
}
