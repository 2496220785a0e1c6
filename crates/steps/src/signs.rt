// What elements are told apart by: which word or sign of one spelling each is, and the place where it begins.
ghost use Rattle.std.specs.Prelude.{◌≡◌, eqb};
ghost use Rattle.elements.specs.Next.{place_of};
ghost use Rattle.steps.specs.Signs.{sign_of, word_code};

use elements::Element;
use words::Fixed;

// Whether an element is this word or sign.
pub fn is_the(e: Element, sign: Fixed) -> bool
    ensures { result ≡ eqb (sign_of e) (word_code sign) }
{
    match e {
        Element::The(k, _, _) => k == sign,
        _ => false,
    }
}

// Where an element begins, its opening quote included.
pub fn start_of(e: Element) -> usize
    ensures { result ≡ place_of e }
{
    match e {
        Element::Name(a, _) => a,
        Element::The(_, a, _) => a,
        Element::End(_, a, _) => a,
        Element::Integer(_, _, a, _) => a,
        Element::Based(_, _, a, _) => a,
        Element::Float(_, a, _) => a,
        Element::Time(_, a, _) => a,
        Element::Text(a, _) => a.saturating_sub(1),
        Element::Symbol(a, _) => a.saturating_sub(1),
    }
}
