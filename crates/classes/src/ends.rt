// Classes of bytes as types, and where a run of a class ends: one function for every class.
ghost use Rattle.std.specs.Prelude.{◌≡◌, ℕ, Bool, not, ◌≤◌, length};
ghost use Rattle.rules.specs.Bytes.{front, digit, alnum, word_byte, line_end};
ghost use Rattle.rules.proofs.Machine.Checks.{text_byte, symbol_byte};
ghost use Rattle.classes.specs.Places.{EndsAt};

use crate::{in_line, in_symbol, in_text, is_alnum, is_digit, is_word};

// A class of bytes: the test that the rules have for it, and the code's.
pub trait Class {
    ghost holds: { ℕ → Bool };

    fn holds(b: u8) -> bool
        ensures { result ≡ holds b };
}

pub struct Word;

pub struct Digit;

pub struct Alnum;

pub struct InText;

pub struct InSymbol;

pub struct InLine;

impl Class for Word {
    ghost holds = { word_byte };

    fn holds(b: u8) -> bool {
        is_word(b)
    }
}

impl Class for Digit {
    ghost holds = { digit };

    fn holds(b: u8) -> bool {
        is_digit(b)
    }
}

impl Class for Alnum {
    ghost holds = { alnum };

    fn holds(b: u8) -> bool {
        is_alnum(b)
    }
}

impl Class for InText {
    ghost holds = { text_byte };

    fn holds(b: u8) -> bool {
        in_text(b)
    }
}

impl Class for InSymbol {
    ghost holds = { symbol_byte };

    fn holds(b: u8) -> bool {
        in_symbol(b)
    }
}

impl Class for InLine {
    ghost holds = { λ b. not (line_end b) };

    fn holds(b: u8) -> bool {
        in_line(b)
    }
}

// Where the bytes of a class from a place on end.
#[inline(never)]
pub fn run_end<C: Class>(s: &[u8], at: usize) -> usize
    requires { at ≤ length s.now }
    ensures { EndsAt (front C.holds) s.now at result }
{
    for i in at..s.len() {
        if !C::holds(s[i]) {
            return i;
        }
    }
    s.len()
}
