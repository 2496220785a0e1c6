// Dates and times, at the start of the room that is lent.
ghost use Rattle.std.specs.Prelude.{◌≡◌, cond, ◌∷◌, ◌++◌, ◌≤◌};
ghost use Rattle.rules.specs.Bytes.{ascii};
ghost use Rattle.rules.specs.Values.{significant};
ghost use Rattle.rules.specs.Written.{wide, date_bytes, fraction, zone, time_bytes, moment_bytes};
ghost use Rattle.words.specs.Says.{whole, moment_of};
ghost use Rattle.output.specs.Puts.{Puts};
ghost use Rattle.numerals.specs.Counts.{Trimmed};

use crate::numbers::put_wide;
use output::put_byte;
use words::Moment;

// Decimals: how many, and the number that they are the digits of.
#[derive(Clone, Copy)]
pub struct Fraction {
    pub size: usize,
    pub value: u64,
}

// A sign and a number of two digits.
fn put_two(out: &mut [u8], sign: u8, n: u64) -> usize
    ensures { Puts (sign ∷ wide 2 n) out.old out.new result × (result ≡ 3) }
{
    let a = put_byte(out, sign);
    let k = a.min(out.len());
    a + put_wide(&mut out[k..], 2, n)
}

fn put_date(out: &mut [u8], x: Moment) -> usize
    ensures { Puts (date_bytes (moment_of x)) out.old out.new result × (result ≡ 10) }
{
    let a = put_wide(out, 4, u64::from(x.year));
    let k = a.min(out.len());
    let b = a + put_two(&mut out[k..], b'-', u64::from(x.month));
    let j = b.min(out.len());
    b + put_two(&mut out[j..], b'-', u64::from(x.day))
}

// HH:MM:SS
fn put_clock(out: &mut [u8], x: Moment) -> usize
    ensures { Puts (wide 2 x.hour ++ ((ascii ":" ++ wide 2 x.minute) ++ (ascii ":" ++ wide 2 x.second))) out.old out.new result × (result ≡ 8) }
{
    let a = put_wide(out, 2, u64::from(x.hour));
    let k = a.min(out.len());
    let b = a + put_two(&mut out[k..], b':', u64::from(x.minute));
    let j = b.min(out.len());
    b + put_two(&mut out[j..], b':', u64::from(x.second))
}

// The decimals of a second without the zeros that end them, where some are left.
fn trim(n: u32) -> Option<Fraction>
    ensures { Trimmed n result }
{
    let mut v = u64::from(n);
    for k in (0..9).rev() {
        if v % 10 != 0 {
            return Some(Fraction {
                size: k + 1,
                value: v,
            });
        }
        v /= 10;
    }
    None
}

fn put_fraction(out: &mut [u8], n: u32) -> usize
    ensures { Puts (fraction (significant (wide 9 n))) out.old out.new result × (result ≤ 10) }
{
    let Some(f) = trim(n) else {
        return 0;
    };
    let a = put_byte(out, b'.');
    let k = a.min(out.len());
    a + put_wide(&mut out[k..], f.size, f.value)
}

fn zone_sign(west: bool) -> u8
    ensures { result ≡ cond west 45 43 }
{
    if west { b'-' } else { b'+' }
}

fn put_zone(out: &mut [u8], x: Moment) -> usize
    ensures { Puts (zone (whole x.west x.offset)) out.old out.new result × (result ≤ 6) }
{
    if x.offset == 0 {
        return put_byte(out, b'Z');
    }
    let a = put_two(out, zone_sign(x.west), u64::from(x.offset / 60));
    let k = a.min(out.len());
    a + put_two(&mut out[k..], b':', u64::from(x.offset % 60))
}

fn put_time(out: &mut [u8], x: Moment) -> usize
    ensures { Puts (time_bytes (zone (whole x.west x.offset)) (moment_of x)) out.old out.new result × (result ≤ 24) }
{
    let a = put_clock(out, x);
    let k = a.min(out.len());
    let b = a + put_fraction(&mut out[k..], x.nanoseconds);
    let j = b.min(out.len());
    b + put_zone(&mut out[j..], x)
}

pub fn put_moment(out: &mut [u8], x: Moment) -> usize
    ensures { Puts (moment_bytes (moment_of x)) out.old out.new result × (result ≤ 35) }
{
    if x.parts == 1 {
        return put_date(out, x);
    }
    if x.parts == 2 {
        return put_time(out, x);
    }
    let a = put_date(out, x);
    let k = a.min(out.len());
    let b = a + put_byte(&mut out[k..], b'T');
    let j = b.min(out.len());
    b + put_time(&mut out[j..], x)
}
