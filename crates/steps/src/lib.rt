// The step over one element: the state that it leads to from a state, and what it gives.
#![tactic(auto)]

mod lines; // lines.rt: names, blocks and END
mod moves; // moves.rt: ways to go on from a state
mod signs; // signs.rt: what elements are told apart by
mod units; // units.rt: units
mod values; // values.rt: values

ghost use Rattle.steps.specs.States.{state_of};
ghost use Rattle.steps.specs.Steps.{Does};

use elements::Element;
use lines::{
    after_number, at_equals, begin, block_equals, block_name, closed, closing_name, ended, pointer,
};
use moves::settled;
use rows::{Kind, Nest, Op, Row};
pub use signs::start_of;
use units::{after_exponent, after_unit, exponent, unit_name};
use values::{
    after_row, first_member, first_of_set, in_row, in_sequence, in_set, next_row, scalar, value,
};

// What is awaited.
#[derive(Clone, Copy)]
pub enum Awaited {
    Statement,
    Equals,
    Pointer,
    BlockEquals,
    BlockName,
    Closed,
    ClosingName,
    Value,
    Member,
    FirstMember,
    FirstOfSet,
    AfterNumber,
    InSequence,
    InRow,
    InSet,
    UnitName,
    AfterUnit,
    Exponent,
    AfterExponent,
    AfterRow,
    NextRow,
    Ended,
}

// The kind is the block's that is being opened; op, from and upto are the unit's, or the closing name's, in hand; top and full
// are all that a step must know of the open blocks, so that it need not hold their arrays. Outside all blocks full counts for nothing.
#[derive(Clone, Copy)]
pub struct State {
    pub awaited: Awaited,
    pub nest: Nest,
    pub kind: Kind,
    pub op: Op,
    pub top: Option<Kind>,
    pub full: bool,
    pub from: usize,
    pub upto: usize,
}

// Why an element is refused.
#[derive(Clone, Copy, PartialEq, Eq)]
pub enum Misfit {
    PastLimit,
    Misplaced,
    OtherName,
    TooDeep,
    EndNotSetOff,
}

// The state that an element leads to, and the row that it gives, if any. A row that opens or closes a block asks the loop to do so.
#[derive(Clone, Copy)]
pub struct Stepped {
    pub state: State,
    pub row: Option<Row>,
}

// Each that can be awaited has its function. An element is refused at its own place, `start_of`.
pub fn step(label: &[u8], t: State, e: Element) -> Result<Stepped, Misfit>
    ensures { Does label.now t (state_of label.now t) e result }
{
    let awaited = settled(t, e);
    match awaited {
        Awaited::Statement => begin(label, t, e),
        Awaited::Equals => at_equals(label, t, e),
        Awaited::Pointer => pointer(label, t, e),
        Awaited::BlockEquals => block_equals(label, t, e),
        Awaited::BlockName => block_name(label, t, e),
        Awaited::Closed => closed(label, t, e),
        Awaited::ClosingName => closing_name(label, t, e),
        Awaited::Value => value(label, t, e),
        Awaited::Member => scalar(label, t, e),
        Awaited::FirstMember => first_member(label, t, e),
        Awaited::FirstOfSet => first_of_set(label, t, e),
        Awaited::AfterNumber => after_number(label, t, e),
        Awaited::InSequence => in_sequence(label, t, e),
        Awaited::InRow => in_row(label, t, e),
        Awaited::InSet => in_set(label, t, e),
        Awaited::UnitName => unit_name(label, t, e),
        Awaited::AfterUnit => after_unit(label, t, e),
        Awaited::Exponent => exponent(label, t, e),
        Awaited::AfterExponent => after_exponent(label, t, e),
        Awaited::AfterRow => after_row(label, t, e),
        Awaited::NextRow => next_row(label, t, e),
        Awaited::Ended => ended(label, t, e),
    }
}
