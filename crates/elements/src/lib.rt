// The elements of a label: blanks and comments passed, then the word, sign, text or symbol that stands there, or the fault.
#![tactic(auto)]

mod ends; // ends.rt: where comments end, and what breaks off
mod gaps; // gaps.rt: blanks and comments
mod marks; // marks.rt: signs, and what opens a text or a symbol
mod quotes; // quotes.rt: texts and symbols
mod word; // word.rt: words

ghost use Rattle.std.specs.Prelude.{◌≤◌, length};
ghost use Rattle.rules.specs.Reading.{longest};
ghost use Rattle.elements.specs.Places.{Clear};
ghost use Rattle.elements.specs.Next.{Stands, NextAt};

use classes::is_word;
use gaps::skip_gap;
use marks::{Mark, mark_of, star_at};
use quotes::{symbol_at, text_at};
use word::word_at;
use words::{Fixed, Moment, Real};

// An element with its start and its end; those of a text and a symbol leave the quotes out. Of END, whether it is set off.
#[derive(Clone, Copy)]
pub enum Element {
    Name(usize, usize),
    The(Fixed, usize, usize),
    End(bool, usize, usize),
    Integer(bool, u64, usize, usize),
    Based(bool, u64, usize, usize),
    Float(Real, usize, usize),
    Time(Moment, usize, usize),
    Text(usize, usize),
    Symbol(usize, usize),
}

// An element and the place just past it, closing quote included.
#[derive(Clone, Copy)]
pub struct Found(pub Element, pub usize);

// Faults: a byte that may not stand there, a text, symbol or comment left open, an element of no form, and one past a limit.
#[derive(Clone, Copy)]
pub enum Fault {
    ForeignByte,
    LeftOpen,
    NoForm,
    PastLimit,
}

// A fault and the place where the element or comment that has it begins.
#[derive(Clone, Copy)]
pub struct Broken(pub Fault, pub usize);

// What stands at a place where no blank and no comment does; nothing at the label's end.
fn element_at(label: &[u8], at: usize) -> Result<Option<Found>, Broken>
    requires { Clear label.now at × (length label.now ≤ longest) }
    ensures { Stands label.now at result }
{
    if at == label.len() {
        return Ok(None);
    }
    let b = label[at];
    if is_word(b) {
        return Ok(Some(word_at(label, at)?));
    }
    let found = match mark_of(b) {
        Some(Mark::One(s)) => Found(Element::The(s, at, at + 1), at + 1),
        Some(Mark::Asterisk) => star_at(label, at),
        Some(Mark::Stroke) => Found(Element::The(Fixed::Slash, at, at + 1), at + 1),
        Some(Mark::Quote) => text_at(label, at)?,
        Some(Mark::Apostrophe) => symbol_at(label, at)?,
        None => return Err(Broken(Fault::ForeignByte, at)),
    };
    Ok(Some(found))
}

// The next element from a place on, behind blanks and comments; none at the input's end.
pub fn next(label: &[u8], from: usize) -> Result<Option<Found>, Broken>
    requires { (from ≤ length label.now) × (length label.now ≤ longest) }
    ensures { NextAt label.now from result }
{
    let at = skip_gap(label, from)?;
    element_at(label, at)
}
