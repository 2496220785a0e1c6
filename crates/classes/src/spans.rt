// Bytes at places that need not lie inside: with no bound to keep, callers have none to show.
ghost use Rattle.std.specs.Prelude.{◌≡◌, ◌≤◌, length};
ghost use Rattle.classes.specs.Places.{ByteAt, part};

// The byte at a place, and 0 past the end.
pub fn byte_at(s: &[u8], i: usize) -> u8
    ensures { ByteAt s.now i result }
{
    s.get(i).copied().unwrap_or(0)
}

// The bytes from a to b, as many as there are.
pub fn part<'a>(s: &'a [u8], a: usize, b: usize) -> &'a [u8]
    ensures { (result.now ≡ part s.now a b) × (length result.now ≤ length s.now) }
{
    let end = b.min(s.len());
    match s.get(a..end) {
        Some(bytes) => bytes,
        None => &s[..0],
    }
}
