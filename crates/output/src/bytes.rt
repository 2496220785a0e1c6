// Bytes at the start of the room that is lent.
ghost use Rattle.std.specs.Prelude.{◌≡◌, [], ◌∷◌, map, length};
ghost use Rattle.rules.specs.Bytes.{fold};
ghost use Rattle.output.specs.Puts.{Puts};

use classes::folded;

pub fn put_byte(out: &mut [u8], b: u8) -> usize
    ensures { Puts (b ∷ []) out.old out.new result }
{
    if let Some(first) = out.first_mut() {
        *first = b;
    }
    1
}

// Not inlined, and nor is the next: a copy of such a loop at each call would make a sixth of all code. `copy_from_slice` would make a call of memmove here, which
// the library asks of no board.
#[inline(never)]
pub fn put_bytes(out: &mut [u8], w: &[u8]) -> usize
    ensures { Puts w.now out.old out.new result }
{
    for i in 0..w.len().min(out.len()) {
        out[i] = w[i];
    }
    w.len()
}

#[inline(never)]
pub fn put_folded(out: &mut [u8], w: &[u8]) -> usize
    ensures { Puts (map fold w.now) out.old out.new result × (result ≡ length w.now) }
{
    for i in 0..w.len().min(out.len()) {
        out[i] = folded(w[i]);
    }
    w.len()
}
