// Units: a name, its exponent, and what joins the factors.
ghost use Rattle.rules.proofs.Machine.Statements.{at_unit, at_power, at_exponent, at_factor};
ghost use Rattle.classes.specs.Places.{as_span};
ghost use Rattle.rows.specs.Rows.{op_of, place_in};
ghost use Rattle.steps.specs.Steps.{Does};

use crate::moves::{giving, passing};
use crate::signs::is_the;
use crate::{Awaited, Misfit, State, Stepped};
use elements::Element;
use rows::{Op, Row};
use words::Fixed;

const LARGEST_EXPONENT: u64 = 99;

pub fn unit_name(label: &[u8], t: State, e: Element) -> Result<Stepped, Misfit>
    ensures { Does label.now t (at_unit (place_in t.nest) (op_of t.op)) e result }
{
    let Element::Name(a, b) = e else {
        return Err(Misfit::Misplaced);
    };
    passing(t.with_unit(a, b))
}

pub fn after_unit(label: &[u8], t: State, e: Element) -> Result<Stepped, Misfit>
    ensures { Does label.now t (at_power (place_in t.nest) (op_of t.op) (as_span t.from t.upto)) e result }
{
    if is_the(e, Fixed::Power) {
        return passing(t.awaiting(Awaited::Exponent));
    }
    if is_the(e, Fixed::Star) {
        return giving(
            t.awaiting_unit(Op::Times),
            Row::Unit(t.op, t.from, t.upto, false, 1),
        );
    }
    if is_the(e, Fixed::Slash) {
        return giving(
            t.awaiting_unit(Op::Divided),
            Row::Unit(t.op, t.from, t.upto, false, 1),
        );
    }
    if is_the(e, Fixed::Greater) {
        return giving(t.scalar_done(), Row::Unit(t.op, t.from, t.upto, false, 1));
    }
    Err(Misfit::Misplaced)
}

pub fn exponent(label: &[u8], t: State, e: Element) -> Result<Stepped, Misfit>
    ensures { Does label.now t (at_exponent (place_in t.nest) (op_of t.op) (as_span t.from t.upto)) e result }
{
    let Element::Integer(m, v, _, _) = e else {
        return Err(Misfit::Misplaced);
    };
    if LARGEST_EXPONENT < v {
        return Err(Misfit::PastLimit);
    }
    giving(
        t.awaiting(Awaited::AfterExponent),
        Row::Unit(t.op, t.from, t.upto, m, v),
    )
}

pub fn after_exponent(label: &[u8], t: State, e: Element) -> Result<Stepped, Misfit>
    ensures { Does label.now t (at_factor (place_in t.nest)) e result }
{
    if is_the(e, Fixed::Star) {
        return passing(t.awaiting_unit(Op::Times));
    }
    if is_the(e, Fixed::Slash) {
        return passing(t.awaiting_unit(Op::Divided));
    }
    if is_the(e, Fixed::Greater) {
        return passing(t.scalar_done());
    }
    Err(Misfit::Misplaced)
}
