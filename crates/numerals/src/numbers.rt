// Numbers in decimal, at the start of the room that is lent.
ghost use Rattle.std.specs.Prelude.{◌≡◌, ◌≤◌, ◌+◌, ◌/◌, ◌^◌};
ghost use Rattle.rules.specs.Written.{wide, digits, minus_only, decimal, plain_bytes, full_bytes, scaled_bytes, unsigned_bytes, real_bytes};
ghost use Rattle.words.specs.Says.{whole, real_of};
ghost use Rattle.output.specs.Puts.{Puts};
ghost use Rattle.numerals.specs.Counts.{Counted};

use output::{put_byte, put_bytes};
use words::Real;

// A number without its last k digits.
fn without_last(n: u64, k: usize) -> u64
    ensures { result ≡ n / 10 ^ k }
{
    let mut v = n;
    for _ in 0..k {
        v /= 10;
    }
    v
}

// Exactly k digits, or those of them that the room holds, the last one first.
pub fn put_wide(out: &mut [u8], k: usize, n: u64) -> usize
    ensures { Puts (wide k n) out.old out.new result × (result ≡ k) }
{
    let e = k.min(out.len());
    let mut v = without_last(n, k - e);
    for i in (0..e).rev() {
        out[i] = b'0' + (v % 10) as u8;
        v /= 10;
    }
    k
}

fn digit_count(n: u64) -> usize
    ensures { Counted n result }
{
    let mut v = n;
    let mut k = 1;
    while 10 <= v {
        v /= 10;
        k += 1;
    }
    k
}

fn put_digits(out: &mut [u8], n: u64) -> usize
    ensures { Puts (digits n) out.old out.new result × (result ≤ 20) }
{
    put_wide(out, digit_count(n), n)
}

fn put_sign(out: &mut [u8], minus: bool) -> usize
    ensures { Puts (minus_only minus) out.old out.new result × (result ≤ 1) }
{
    if minus {
        return put_byte(out, b'-');
    }
    0
}

pub fn put_decimal(out: &mut [u8], minus: bool, n: u64) -> usize
    ensures { Puts (decimal (whole minus n)) out.old out.new result × (result ≤ 21) }
{
    let a = put_sign(out, minus);
    let k = a.min(out.len());
    a + put_digits(&mut out[k..], n)
}

// Plainly: as many digits behind the period as the power is below 0, and before it the others, or 0.
fn put_plain(out: &mut [u8], n: u64, places: u16) -> usize
    ensures { Puts (plain_bytes n places) out.old out.new result × (result ≤ 21 + places) }
{
    let p = usize::from(places);
    let a = put_digits(out, without_last(n, p));
    let k = a.min(out.len());
    let b = a + put_byte(&mut out[k..], b'.');
    let j = b.min(out.len());
    b + put_wide(&mut out[j..], p, n)
}

// All digits, as many zeros as the power says, and `.0`.
fn put_full(out: &mut [u8], n: u64, zeros: u16) -> usize
    ensures { Puts (full_bytes n zeros) out.old out.new result × (result ≤ 22 + zeros) }
{
    let a = put_digits(out, n);
    let k = a.min(out.len());
    let b = a + put_wide(&mut out[k..], usize::from(zeros), 0);
    let j = b.min(out.len());
    b + put_bytes(&mut out[j..], b".0")
}

// Number, period, `E` and power.
fn put_scaled(out: &mut [u8], x: Real) -> usize
    ensures { Puts (scaled_bytes x.number (whole x.below x.power)) out.old out.new result × (result ≤ 43) }
{
    let a = put_digits(out, x.number);
    let k = a.min(out.len());
    let b = a + put_bytes(&mut out[k..], b".E");
    let j = b.min(out.len());
    b + put_decimal(&mut out[j..], x.below, u64::from(x.power))
}

// A real behind its sign: which of the three it is.
fn put_unsigned(out: &mut [u8], x: Real) -> usize
    ensures { Puts (unsigned_bytes x.number (whole x.below x.power)) out.old out.new result × (result ≤ 43) }
{
    if x.below {
        if x.power <= 18 {
            return put_plain(out, x.number, x.power);
        }
        return put_scaled(out, x);
    }
    if digit_count(x.number) + usize::from(x.power) <= 18 {
        return put_full(out, x.number, x.power);
    }
    put_scaled(out, x)
}

pub fn put_real(out: &mut [u8], x: Real) -> usize
    ensures { Puts (real_bytes (real_of x)) out.old out.new result × (result ≤ 44) }
{
    let a = put_sign(out, x.minus);
    let k = a.min(out.len());
    a + put_unsigned(&mut out[k..], x)
}
