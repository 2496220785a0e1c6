// The bytes of names and of blocks' lines. Each at the start of the room that is lent.
ghost use Rattle.std.specs.Prelude.{cond, ◌++◌, [], map, ◌≤◌, eqb, length};
ghost use Rattle.rules.specs.Bytes.{ascii, fold};
ghost use Rattle.rules.specs.Reading.{longest};
ghost use Rattle.rules.specs.Written.{open_word, close_word};
ghost use Rattle.rows.specs.Rows.{kind_of};
ghost use Rattle.output.specs.Puts.{Puts};

use output::{put_byte, put_bytes, put_folded};
use rows::Kind;

// `NAME =`
pub fn put_named(out: &mut [u8], w: &[u8]) -> usize
    requires { length w.now ≤ longest }
    ensures { Puts (map fold w.now ++ ascii " =") out.old out.new result × (result ≤ 65537) }
{
    let a = put_folded(out, w);
    let k = a.min(out.len());
    a + put_bytes(&mut out[k..], b" =")
}

// `^NAME =`
pub fn put_pointed(out: &mut [u8], w: &[u8]) -> usize
    requires { length w.now ≤ longest }
    ensures { Puts (ascii "^" ++ (map fold w.now ++ ascii " =")) out.old out.new result × (result ≤ 65538) }
{
    let a = put_byte(out, b'^');
    let k = a.min(out.len());
    a + put_named(&mut out[k..], w)
}

fn put_open_word(out: &mut [u8], kind: Kind) -> usize
    ensures { Puts (open_word (kind_of kind)) out.old out.new result × (result ≤ 6) }
{
    match kind {
        Kind::Object => put_bytes(out, b"OBJECT"),
        Kind::Group => put_bytes(out, b"GROUP"),
    }
}

// The word of an opening line behind `END_`.
fn put_close_word(out: &mut [u8], kind: Kind) -> usize
    ensures { Puts (close_word (kind_of kind)) out.old out.new result × (result ≤ 10) }
{
    let a = put_bytes(out, b"END_");
    let k = a.min(out.len());
    a + put_open_word(&mut out[k..], kind)
}

// ` = NAME`
fn put_naming(out: &mut [u8], w: &[u8]) -> usize
    requires { length w.now ≤ longest }
    ensures { Puts (ascii " = " ++ map fold w.now) out.old out.new result × (result ≤ 65538) }
{
    let a = put_bytes(out, b" = ");
    let k = a.min(out.len());
    a + put_folded(&mut out[k..], w)
}

// `OBJECT = NAME`
pub fn put_opening(out: &mut [u8], kind: Kind, w: &[u8]) -> usize
    requires { length w.now ≤ longest }
    ensures { Puts (open_word (kind_of kind) ++ (ascii " = " ++ map fold w.now)) out.old out.new result × (result ≤ 65550) }
{
    let a = put_open_word(out, kind);
    let k = a.min(out.len());
    a + put_naming(&mut out[k..], w)
}

// `END_OBJECT = NAME`, or the word alone where no block is open.
pub fn put_closing(out: &mut [u8], d: usize, kind: Kind, w: &[u8]) -> usize
    requires { length w.now ≤ longest }
    ensures { Puts (close_word (kind_of kind) ++ cond (eqb d 0) [] (ascii " = " ++ map fold w.now)) out.old out.new result × (result ≤ 65550) }
{
    let a = put_close_word(out, kind);
    if d == 0 {
        return a;
    }
    let k = a.min(out.len());
    a + put_naming(&mut out[k..], w)
}
