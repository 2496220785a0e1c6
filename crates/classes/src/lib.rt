// Classes of bytes, as tests and as types, and what else every crate asks for: where a run ends, the bytes of a span, names compared.
#![tactic(auto)]

mod spans; // spans.rt: the byte at a place, and the bytes between two
mod names; // names.rt: names compared case folded
mod ends; // ends.rt: classes of bytes as types, and where a run of one ends

ghost use Rattle.std.specs.Prelude.{◌≡◌, not, ◌&&◌, eqb, ltb};
ghost use Rattle.rules.specs.Bytes.{digit, letter, alnum, lower, fold, word_byte, line_end};
ghost use Rattle.rules.specs.Elements.{is_blank};
ghost use Rattle.rules.proofs.Machine.Checks.{text_byte, symbol_byte};

pub use ends::{Alnum, Class, Digit, InLine, InSymbol, InText, Word, run_end};
pub use names::alike;
pub use spans::{byte_at, part};

// The rules refuse a label of more bytes.
pub const LONGEST_LABEL: usize = 65535;

// The room of their own in which the reader and the writer make what they lay into the lent one.
pub const OWN_ROOM: usize = 16384;

// Letters and digits come first: most bytes of words are.
pub fn is_word(b: u8) -> bool
    ensures { result ≡ word_byte b }
{
    is_alnum(b) || matches!(b, b'_' | b'+' | b'-' | b'.' | b':' | b'#')
}

pub fn is_line_end(b: u8) -> bool
    ensures { result ≡ line_end b }
{
    matches!(b, b'\n'..=b'\r')
}

pub fn is_blank(b: u8) -> bool
    ensures { result ≡ is_blank b }
{
    matches!(b, b' ' | b'\t' | b'\n'..=b'\r')
}

pub fn in_text(b: u8) -> bool
    ensures { result ≡ text_byte b }
{
    b.is_ascii() & (b != b'"')
}

pub fn in_symbol(b: u8) -> bool
    ensures { result ≡ symbol_byte b }
{
    (b' '..=b'~').contains(&b) & (b != b'\'')
}

pub fn in_line(b: u8) -> bool
    ensures { result ≡ not (line_end b) }
{
    !is_line_end(b)
}

// A byte of a comment, with the byte behind it.
pub fn in_comment(b: u8, n: u8) -> bool
    ensures { result ≡ ((ltb b 128 && not (line_end b)) && not (eqb b 42 && eqb n 47)) }
{
    (b.is_ascii() & in_line(b)) & !((b == b'*') & (n == b'/'))
}

pub fn is_digit(b: u8) -> bool
    ensures { result ≡ digit b }
{
    b.is_ascii_digit()
}

pub fn is_letter(b: u8) -> bool
    ensures { result ≡ letter b }
{
    b.is_ascii_alphabetic()
}

pub fn is_alnum(b: u8) -> bool
    ensures { result ≡ alnum b }
{
    is_letter(b) | is_digit(b)
}

pub fn is_lower(b: u8) -> bool
    ensures { result ≡ lower b }
{
    b.is_ascii_lowercase()
}

pub fn folded(b: u8) -> u8
    ensures { result ≡ fold b }
{
    if is_lower(b) {
        b.to_ascii_uppercase()
    } else {
        b
    }
}
