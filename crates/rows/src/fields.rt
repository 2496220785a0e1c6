// Numbers out of the bytes of a row's body: high byte first, and two's complement into a sign and a size. A body too short is read as
// though zeros followed.
ghost use Rattle.std.specs.Prelude.{◌≡◌, cond, ◌+◌, ◌-◌, ◌^◌, ◌<◌, ◌≤◌, leb};
ghost use Rattle.rows.specs.Decoding.{NumberAt, OctetAt};

use classes::byte_at;

// The byte at a place of the body.
pub fn octet(b: &[u8], i: usize) -> u8
    ensures { OctetAt b.now i result }
{
    byte_at(b, i)
}

// The number that N bytes from a place on are.
pub fn number_at<const N: usize>(b: &[u8], i: usize) -> u64
    requires { (N ≤ 8) × (i + N ≤ 18446744073709551616) }
    ensures { NumberAt N 0 b.now i result × (result < 256 ^ N) }
{
    let mut v = 0;
    for j in 0..N {
        v = v * 256 + u64::from(byte_at(b, i + j));
    }
    v
}

// Whether a number in two's complement is below zero: half is where those numbers begin.
pub fn is_minus(v: u64, half: u64) -> bool
    ensures { result ≡ leb half v }
{
    half <= v
}

// Its size.
pub fn size_of(v: u64, half: u64) -> u64
    requires { v < half + half }
    ensures { (result ≡ cond (leb half v) (half + half - v) v) × (result ≤ half) }
{
    if half <= v {
        return half - (v - half);
    }
    v
}
