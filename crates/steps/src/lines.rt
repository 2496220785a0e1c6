// Statements: names and their signs, the words that open and close a block, END, and the sign that begins a unit.
ghost use Rattle.std.specs.Prelude.{◌≡◌};
ghost use Rattle.rules.proofs.Machine.Statements.{at_semicolon, at_equals, at_pointer, at_opener, at_opened, at_closer, at_closed, at_number, at_end};
ghost use Rattle.rows.specs.Rows.{kind_of, place_in};
ghost use Rattle.steps.specs.Signs.{sign_of, open_code, Word};
ghost use Rattle.steps.specs.States.{is_full};
ghost use Rattle.steps.specs.Steps.{Does};
ghost use Rattle.classes.specs.Places.{name_at};

use crate::moves::{giving, passing};
use crate::signs::is_the;
use crate::{Awaited, Misfit, State, Stepped};
use classes::{alike, part};
use elements::Element;
use rows::{Kind, Nest, Op, Row};
use words::Fixed;

pub fn at_equals(label: &[u8], t: State, e: Element) -> Result<Stepped, Misfit>
    ensures { Does label.now t at_equals e result }
{
    if is_the(e, Fixed::Equals) {
        return passing(t.awaiting_in(Awaited::Value, Nest::Alone));
    }
    Err(Misfit::Misplaced)
}

pub fn pointer(label: &[u8], t: State, e: Element) -> Result<Stepped, Misfit>
    ensures { Does label.now t at_pointer e result }
{
    let Element::Name(a, b) = e else {
        return Err(Misfit::Misplaced);
    };
    giving(t.awaiting(Awaited::Equals), Row::Pointer(a, b))
}

pub fn block_equals(label: &[u8], t: State, e: Element) -> Result<Stepped, Misfit>
    requires { t.awaited ≡ Awaited.BlockEquals }
    ensures { Does label.now t (at_opener (kind_of t.kind)) e result }
{
    if is_the(e, Fixed::Equals) {
        return passing(t.awaiting(Awaited::BlockName));
    }
    Err(Misfit::Misplaced)
}

pub fn block_name(label: &[u8], t: State, e: Element) -> Result<Stepped, Misfit>
    requires { t.awaited ≡ Awaited.BlockName }
    ensures { Does label.now t (at_opened (kind_of t.kind)) e result }
{
    let Element::Name(a, b) = e else {
        return Err(Misfit::Misplaced);
    };
    giving(t.awaiting(Awaited::Statement), Row::Open(t.kind, a, b))
}

// Whether as many blocks are open as may be: outside all blocks none is.
fn is_full(t: State) -> bool
    ensures { result ≡ is_full t }
{
    match t.top {
        None => false,
        Some(_) => t.full,
    }
}

// OBJECT or GROUP
pub fn open_word(label: &[u8], t: State, k: Kind, e: Element) -> Result<Stepped, Misfit>
    requires { sign_of e ≡ open_code k }
    ensures { Does label.now t at_semicolon e result }
{
    if is_full(t) {
        return Err(Misfit::TooDeep);
    }
    passing(t.opening(k))
}

pub fn word(label: &[u8], t: State, e: Element) -> Result<Stepped, Misfit>
    requires { Word e }
    ensures { Does label.now t at_semicolon e result }
{
    if is_the(e, Fixed::Caret) {
        return passing(t.awaiting(Awaited::Pointer));
    }
    if is_the(e, Fixed::Object) {
        return open_word(label, t, Kind::Object, e);
    }
    if is_the(e, Fixed::Group) {
        return open_word(label, t, Kind::Group, e);
    }
    match t.top {
        None => Err(Misfit::Misplaced),
        Some(kind) => match kind {
            Kind::Object => {
                if is_the(e, Fixed::EndObject) {
                    return giving(t.awaiting(Awaited::Closed), Row::Close(Kind::Object));
                }
                Err(Misfit::Misplaced)
            }
            Kind::Group => {
                if is_the(e, Fixed::EndGroup) {
                    return giving(t.awaiting(Awaited::Closed), Row::Close(Kind::Group));
                }
                Err(Misfit::Misplaced)
            }
        },
    }
}

pub fn begin(label: &[u8], t: State, e: Element) -> Result<Stepped, Misfit>
    ensures { Does label.now t at_semicolon e result }
{
    match e {
        Element::Name(a, b) => giving(t.awaiting(Awaited::Equals), Row::Attribute(a, b)),
        Element::The(_, _, _) => word(label, t, e),
        Element::End(off, _, b) => {
            match t.top {
                None => {
                    if off {
                        return giving(t.awaiting(Awaited::Ended), Row::Last(b));
                    }
                    Err(Misfit::EndNotSetOff)
                }
                Some(_) => Err(Misfit::Misplaced),
            }
        }
        _ => Err(Misfit::Misplaced),
    }
}

// The sign that begins a unit: a number without one is met as what follows it.
pub fn after_number(label: &[u8], t: State, e: Element) -> Result<Stepped, Misfit>
    requires { sign_of e ≡ 60 }
    ensures { Does label.now t (at_number (place_in t.nest)) e result }
{
    passing(t.awaiting_unit(Op::First))
}

// The sign between a closing word and its name: a word without one is met as a statement.
pub fn closed(label: &[u8], t: State, e: Element) -> Result<Stepped, Misfit>
    requires { sign_of e ≡ 61 }
    ensures { Does label.now t (at_closer (name_at label.now t.from t.upto)) e result }
{
    passing(t.awaiting(Awaited::ClosingName))
}

pub fn closing_name(label: &[u8], t: State, e: Element) -> Result<Stepped, Misfit>
    ensures { Does label.now t (at_closed (name_at label.now t.from t.upto)) e result }
{
    let Element::Name(a, b) = e else {
        return Err(Misfit::Misplaced);
    };
    if alike(part(label, a, b), part(label, t.from, t.upto)) {
        return passing(t.awaiting(Awaited::Statement));
    }
    Err(Misfit::OtherName)
}

pub fn ended(label: &[u8], t: State, e: Element) -> Result<Stepped, Misfit>
    ensures { Does label.now t at_end e result }
{
    Err(Misfit::Misplaced)
}
