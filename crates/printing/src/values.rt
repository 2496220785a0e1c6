// The bytes of texts, symbols and units. Each at the start of the room that is lent.
ghost use Rattle.std.specs.Prelude.{◌≡◌, ◌++◌, map, ◌≤◌, length};
ghost use Rattle.rules.specs.Bytes.{ascii, fold};
ghost use Rattle.rules.specs.Meaning.{reassemble};
ghost use Rattle.rules.specs.Reading.{longest};
ghost use Rattle.rules.specs.Written.{symbol_bytes, is_one, op_sign, exponent_bytes};
ghost use Rattle.words.specs.Says.{whole};
ghost use Rattle.rows.specs.Rows.{op_of};
ghost use Rattle.output.specs.Puts.{Puts};

use numerals::put_decimal;
use output::{put_byte, put_bytes, put_folded, put_reassembled};
use rows::Op;
use words::is_name;

// A text reassembled, in its quotes.
pub fn put_quoted(out: &mut [u8], w: &[u8]) -> usize
    requires { length w.now ≤ longest }
    ensures { Puts (ascii "\"" ++ (reassemble w.now ++ ascii "\"")) out.old out.new result × (result ≤ 65537) }
{
    let a = put_byte(out, b'"');
    let k = a.min(out.len());
    let b = a + put_reassembled(&mut out[k..], w);
    let j = b.min(out.len());
    b + put_byte(&mut out[j..], b'"')
}

// A symbol, bare or in apostrophes.
pub fn put_marked(out: &mut [u8], w: &[u8]) -> usize
    requires { length w.now ≤ longest }
    ensures { Puts (symbol_bytes (map fold w.now)) out.old out.new result × (result ≤ 65537) }
{
    if is_name(w) {
        return put_folded(out, w);
    }
    let a = put_byte(out, b'\'');
    let k = a.min(out.len());
    let b = a + put_folded(&mut out[k..], w);
    let j = b.min(out.len());
    b + put_byte(&mut out[j..], b'\'')
}

fn put_op(out: &mut [u8], op: Op) -> usize
    ensures { Puts (op_sign (op_of op)) out.old out.new result × (result ≤ 2) }
{
    match op {
        Op::First => put_bytes(out, b" <"),
        Op::Times => put_bytes(out, b"*"),
        Op::Divided => put_bytes(out, b"/"),
    }
}

fn is_one(minus: bool, n: u64) -> bool
    ensures { result ≡ is_one (whole minus n) }
{
    !minus & (n == 1)
}

fn put_exponent(out: &mut [u8], minus: bool, n: u64) -> usize
    ensures { Puts (exponent_bytes (whole minus n)) out.old out.new result × (result ≤ 23) }
{
    if is_one(minus, n) {
        return 0;
    }
    let a = put_bytes(out, b"**");
    let k = a.min(out.len());
    a + put_decimal(&mut out[k..], minus, n)
}

pub fn put_unit(out: &mut [u8], op: Op, w: &[u8], minus: bool, n: u64) -> usize
    requires { length w.now ≤ longest }
    ensures { Puts (op_sign (op_of op) ++ (map fold w.now ++ exponent_bytes (whole minus n))) out.old out.new result × (result ≤ 65600) }
{
    let a = put_op(out, op);
    let k = a.min(out.len());
    let b = a + put_folded(&mut out[k..], w);
    let j = b.min(out.len());
    b + put_exponent(&mut out[j..], minus, n)
}
