// Words: the element of a word, and whether END is set off.
ghost use Rattle.std.specs.Prelude.{◌≡◌, ◌≤◌, length, drop};
ghost use Rattle.rules.specs.Modes.{base};
ghost use Rattle.rules.specs.Elements.{sets_off};
ghost use Rattle.elements.specs.Places.{WordBegins};
ghost use Rattle.elements.specs.Next.{Stands, inside};

use crate::{Broken, Element, Fault, Found};
use classes::{Word, is_blank, run_end};
use words::{Unfit, Value, word};

// Whether END is set off by what follows it: spacing, a line end or the input's end.
fn sets_off(label: &[u8], at: usize) -> bool
    requires { at ≤ length label.now }
    ensures { result ≡ sets_off base (drop at label.now) }
{
    label.get(at).is_none_or(|b| is_blank(*b))
}

// The element that a word is.
pub fn word_at(label: &[u8], at: usize) -> Result<Found, Broken>
    requires { WordBegins label.now at }
    ensures { Stands label.now at (inside result) }
{
    let e = run_end::<Word>(label, at);
    let element = match word(&label[at..e]) {
        Ok(Value::Name) => Element::Name(at, e),
        Ok(Value::End) => Element::End(sets_off(label, e), at, e),
        Ok(Value::The(k)) => Element::The(k, at, e),
        Ok(Value::Integer(minus, n)) => Element::Integer(minus, n, at, e),
        Ok(Value::Based(minus, n)) => Element::Based(minus, n, at, e),
        Ok(Value::Float(x)) => Element::Float(x, at, e),
        Ok(Value::Time(t)) => Element::Time(t, at, e),
        Err(Unfit::PastLimit) => return Err(Broken(Fault::PastLimit, at)),
        Err(Unfit::NoForm) => return Err(Broken(Fault::NoForm, at)),
    };
    Ok(Found(element, e))
}
