// Names compared case folded.
ghost use Rattle.std.specs.Prelude.{◌≡◌, map};
ghost use Rattle.rules.specs.Bytes.{fold};
ghost use Rattle.rules.specs.Values.{same};

pub fn alike(w: &[u8], k: &[u8]) -> bool
    ensures { result ≡ same (map fold w.now) (map fold k.now) }
{
    w.eq_ignore_ascii_case(k)
}
