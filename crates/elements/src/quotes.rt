// Texts and symbols, from their opening quote or apostrophe.
ghost use Rattle.classes.specs.Places.{HasByte};
ghost use Rattle.elements.specs.Next.{Stands, inside};

use crate::ends::break_code;
use crate::{Broken, Element, Fault, Found};
use classes::{InSymbol, InText, byte_at, run_end};

// The longest symbol, with its opening apostrophe.
const LONGEST_OPENED: usize = 256;

pub fn text_at(label: &[u8], at: usize) -> Result<Found, Broken>
    requires { HasByte label.now at 34 }
    ensures { Stands label.now at (inside result) }
{
    let e = run_end::<InText>(label, at + 1);
    if e == label.len() {
        return Err(Broken(Fault::LeftOpen, at));
    }
    if label[e] == b'"' {
        return Ok(Found(Element::Text(at + 1, e), e + 1));
    }
    Err(Broken(Fault::ForeignByte, at))
}

pub fn symbol_at(label: &[u8], at: usize) -> Result<Found, Broken>
    requires { HasByte label.now at 39 }
    ensures { Stands label.now at (inside result) }
{
    let e = run_end::<InSymbol>(label, at + 1);
    if byte_at(label, e) != b'\'' {
        return Err(Broken(break_code(label, e), at));
    }
    if e == at + 1 {
        return Err(Broken(Fault::NoForm, at));
    }
    if LONGEST_OPENED + at < e {
        return Err(Broken(Fault::PastLimit, at));
    }
    Ok(Found(Element::Symbol(at + 1, e), e + 1))
}
