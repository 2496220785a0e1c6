// A number as bytes, high byte first, signed ones in two's complement, at the start of the room that is lent.
ghost use Rattle.std.specs.Prelude.{◌≡◌, cond, [], ◌∷◌, ◌-◌, ◌≤◌, length};
ghost use Rattle.rules.specs.Table.{bytes, complement};
ghost use Rattle.words.specs.Says.{whole};
ghost use Rattle.rows.specs.Rows.{Wrote};

pub fn encode_byte(out: &mut [u8], v: u8) -> usize
    requires { 1 ≤ length out.old }
    ensures { Wrote (v ∷ []) out.old out.new result }
{
    out[0] = v;
    1
}

// The number's last N bytes.
pub fn encode_number<const N: usize>(out: &mut [u8], v: u64) -> usize
    requires { N ≤ length out.old }
    ensures { Wrote (bytes N v) out.old out.new result }
{
    let mut left = v;
    for i in (0..N).rev() {
        out[i] = (left % 256) as u8;
        left /= 256;
    }
    N
}

pub fn twos64(minus: bool, v: u64) -> u64
    ensures { bytes 8 result ≡ complement 8 (whole minus v) }
{
    if minus {
        return v.wrapping_neg();
    }
    v
}

pub fn twos16(minus: bool, v: u16) -> u64
    ensures { result ≡ cond minus (65536 - v) v }
{
    let n = u64::from(v);
    if minus {
        return 65536 - n;
    }
    n
}

pub fn twos8(minus: bool, v: u64) -> u8
    ensures { result ∷ [] ≡ complement 1 (whole minus v) }
{
    if minus {
        return (256u64.saturating_sub(v) % 256) as u8;
    }
    (v % 256) as u8
}
