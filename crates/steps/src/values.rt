// Values: what a scalar, a sequence, a row or a set does with the element that comes next.
ghost use Rattle.rules.proofs.Machine.Statements.{at_scalar, at_row, at_next_row, at_member, no_else, any_value, a_row, a_set_end, in_sequence, in_row, in_set};
ghost use Rattle.rows.specs.Rows.{place_in};
ghost use Rattle.steps.specs.Steps.{Does};

use crate::moves::{following, giving, passing};
use crate::signs::is_the;
use crate::{Awaited, Misfit, State, Stepped};
use elements::Element;
use rows::{Nest, Row};
use words::Fixed;

// What follows is found once, ahead of the arms.
pub fn scalar(label: &[u8], t: State, e: Element) -> Result<Stepped, Misfit>
    ensures { Does label.now t (at_scalar (place_in t.nest) no_else) e result }
{
    let after = following(t.nest);
    match e {
        Element::Name(a, b) => giving(t.awaiting(after), Row::Symbol(a, b)),
        Element::Integer(m, v, _, _) => giving(
            t.awaiting(Awaited::AfterNumber),
            Row::Integer(m, v),
        ),
        Element::Based(m, v, _, _) => giving(t.awaiting(Awaited::AfterNumber), Row::Integer(m, v)),
        Element::Float(x, _, _) => giving(t.awaiting(Awaited::AfterNumber), Row::Float(x)),
        Element::Time(x, _, _) => giving(t.awaiting(after), Row::Time(x)),
        Element::Text(a, b) => giving(t.awaiting(after), Row::Text(a, b)),
        Element::Symbol(a, b) => giving(t.awaiting(after), Row::Symbol(a, b)),
        _ => Err(Misfit::Misplaced),
    }
}

pub fn value(label: &[u8], t: State, e: Element) -> Result<Stepped, Misfit>
    ensures { Does label.now t (at_scalar (place_in t.nest) any_value) e result }
{
    if is_the(e, Fixed::OpenParen) {
        return giving(
            t.awaiting_in(Awaited::FirstMember, Nest::Sequence),
            Row::Sequence,
        );
    }
    if is_the(e, Fixed::OpenBrace) {
        return giving(t.awaiting_in(Awaited::FirstOfSet, Nest::Set), Row::Set);
    }
    scalar(label, t, e)
}

pub fn first_member(label: &[u8], t: State, e: Element) -> Result<Stepped, Misfit>
    ensures { Does label.now t (at_scalar (place_in t.nest) a_row) e result }
{
    if is_the(e, Fixed::OpenParen) {
        return giving(t.awaiting_in(Awaited::Member, Nest::Row), Row::Sequence);
    }
    scalar(label, t, e)
}

pub fn first_of_set(label: &[u8], t: State, e: Element) -> Result<Stepped, Misfit>
    ensures { Does label.now t (at_scalar (place_in t.nest) a_set_end) e result }
{
    if is_the(e, Fixed::CloseBrace) {
        return giving(t.awaiting(Awaited::Statement), Row::SetEnd);
    }
    scalar(label, t, e)
}

pub fn after_row(label: &[u8], t: State, e: Element) -> Result<Stepped, Misfit>
    ensures { Does label.now t at_row e result }
{
    // No row begins here: a comma must stand before it.
    if is_the(e, Fixed::Comma) {
        return passing(t.awaiting(Awaited::NextRow));
    }
    if is_the(e, Fixed::CloseParen) {
        return giving(t.awaiting(Awaited::Statement), Row::SequenceEnd);
    }
    Err(Misfit::Misplaced)
}

pub fn next_row(label: &[u8], t: State, e: Element) -> Result<Stepped, Misfit>
    ensures { Does label.now t at_next_row e result }
{
    // The rows do not end here: a comma stands between two of them.
    if is_the(e, Fixed::OpenParen) {
        return giving(t.awaiting_in(Awaited::Member, Nest::Row), Row::Sequence);
    }
    Err(Misfit::Misplaced)
}

pub fn in_sequence(label: &[u8], t: State, e: Element) -> Result<Stepped, Misfit>
    ensures { Does label.now t (at_member in_sequence) e result }
{
    if is_the(e, Fixed::Comma) {
        return passing(t.awaiting_in(Awaited::Member, Nest::Sequence));
    }
    if is_the(e, Fixed::CloseParen) {
        return giving(t.awaiting(Awaited::Statement), Row::SequenceEnd);
    }
    Err(Misfit::Misplaced)
}

pub fn in_row(label: &[u8], t: State, e: Element) -> Result<Stepped, Misfit>
    ensures { Does label.now t (at_member in_row) e result }
{
    if is_the(e, Fixed::Comma) {
        return passing(t.awaiting_in(Awaited::Member, Nest::Row));
    }
    if is_the(e, Fixed::CloseParen) {
        return giving(t.awaiting(Awaited::AfterRow), Row::SequenceEnd);
    }
    Err(Misfit::Misplaced)
}

pub fn in_set(label: &[u8], t: State, e: Element) -> Result<Stepped, Misfit>
    ensures { Does label.now t (at_member in_set) e result }
{
    if is_the(e, Fixed::Comma) {
        return passing(t.awaiting_in(Awaited::Member, Nest::Set));
    }
    if is_the(e, Fixed::CloseBrace) {
        return giving(t.awaiting(Awaited::Statement), Row::SetEnd);
    }
    Err(Misfit::Misplaced)
}
