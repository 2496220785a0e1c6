// Ways to go on from a state, what is given there, and what an element is met as.
ghost use Rattle.std.specs.Prelude.{◌≡◌};
ghost use Rattle.steps.specs.States.{following_in, state_with, awaiting, named};
ghost use Rattle.steps.specs.Steps.{Met, nothing, one_row, giving};

use crate::signs::is_the;
use crate::{Awaited, Misfit, State, Stepped};
use elements::Element;
use rows::{Kind, Nest, Op, Row};
use words::Fixed;

// What a step does not set stays: what the state knows of the open blocks, say.
impl State {
    pub fn awaiting(self, awaited: Awaited) -> State
        ensures { result ≡ awaiting self awaited }
    {
        State { awaited, ..self }
    }

    pub fn awaiting_in(self, awaited: Awaited, nest: Nest) -> State
        ensures { result ≡ state_with self awaited nest self.kind self.op }
    {
        State {
            awaited,
            nest,
            ..self
        }
    }

    // A block is being opened.
    pub fn opening(self, kind: Kind) -> State
        ensures { result ≡ state_with self Awaited.BlockEquals self.nest kind self.op }
    {
        State {
            awaited: Awaited::BlockEquals,
            kind,
            ..self
        }
    }

    // A unit's name is awaited, after this operator.
    pub fn awaiting_unit(self, op: Op) -> State
        ensures { result ≡ state_with self Awaited.UnitName self.nest self.kind op }
    {
        State {
            awaited: Awaited::UnitName,
            op,
            ..self
        }
    }

    // The unit's name is in hand.
    pub fn with_unit(self, from: usize, upto: usize) -> State
        ensures { result ≡ named (awaiting self Awaited.AfterUnit) from upto }
    {
        State {
            awaited: Awaited::AfterUnit,
            from,
            upto,
            ..self
        }
    }

    // The scalar is done.
    pub fn scalar_done(self) -> State
        ensures { result ≡ awaiting self (following_in self.nest) }
    {
        self.awaiting(following(self.nest))
    }
}

// What follows a scalar, by what it is a member of.
pub fn following(nest: Nest) -> Awaited
    ensures { result ≡ following_in nest }
{
    match nest {
        Nest::Alone => Awaited::Statement,
        Nest::Sequence => Awaited::InSequence,
        Nest::Row => Awaited::InRow,
        Nest::Set => Awaited::InSet,
    }
}

pub fn giving(state: State, row: Row) -> Result<Stepped, Misfit>
    ensures { result ≡ giving state (one_row row) }
{
    Ok(Stepped {
        state,
        row: Some(row),
    })
}

pub fn passing(state: State) -> Result<Stepped, Misfit>
    ensures { result ≡ giving state nothing }
{
    Ok(Stepped { state, row: None })
}

// What an element is met as: a number need not have a unit, nor the word that closes a block a name, so an element that is not the
// sign of one is met as what follows without it. With that told here, what follows is awaited like anything else and its function
// has one caller: one with several is kept out of line, and the state then goes through memory at each element.
pub fn settled(t: State, e: Element) -> Awaited
    ensures { Met t e result }
{
    let awaited = t.awaited;
    match awaited {
        Awaited::Closed => {
            if is_the(e, Fixed::Equals) {
                return awaited;
            }
            Awaited::Statement
        }
        Awaited::AfterNumber => {
            if is_the(e, Fixed::Less) {
                return awaited;
            }
            following(t.nest)
        }
        _ => awaited,
    }
}
