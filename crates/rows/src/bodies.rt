// A row out of its body: the bytes of a row after its kind. A body too short is read as though zeros followed.
ghost use Rattle.std.specs.Prelude.{◌≡◌, ◌≤◌};
ghost use Rattle.rows.specs.Decoding.{NumberAt, body_of, Body, UnitBody, BodyGives};

use crate::fields::{is_minus, number_at, octet, size_of};
use crate::{
    ATTRIBUTE, CLOSE_GROUP, CLOSE_OBJECT, INTEGER, Kind, LAST, LONGEST_ROW, OPEN_GROUP,
    OPEN_OBJECT, Op, POINTER, REAL, Row, SEQUENCE, SEQUENCE_END, SET, SET_END, SYMBOL, TEXT, TIME,
    UNIT,
};
use words::{Moment, Real};

// Where the numbers below zero begin in two's complement, by how many bytes a number has.
const HALF_OF_1: u64 = 128;

const HALF_OF_2: u64 = 32768;

const HALF_OF_8: u64 = 0x8000_0000_0000_0000;

// An offset into the label.
fn place(b: &[u8], i: usize) -> usize
    requires { i ≤ 100 }
    ensures { NumberAt 2 0 b.now i result }
{
    number_at::<2>(b, i) as usize
}

fn integer(b: &[u8]) -> Row
    ensures { Body 10 b.now result }
{
    let v = number_at::<8>(b, 0);
    Row::Integer(is_minus(v, HALF_OF_8), size_of(v, HALF_OF_8))
}

fn float(b: &[u8]) -> Row
    ensures { Body 11 b.now result }
{
    let v = number_at::<8>(b, 0);
    let p = number_at::<2>(b, 8);
    Row::Float(Real {
        minus: is_minus(v, HALF_OF_8),
        number: size_of(v, HALF_OF_8),
        below: is_minus(p, HALF_OF_2),
        power: size_of(p, HALF_OF_2) as u16,
    })
}

fn time(b: &[u8]) -> Row
    ensures { Body 12 b.now result }
{
    let y = number_at::<2>(b, 1);
    let n = number_at::<4>(b, 8);
    let o = number_at::<2>(b, 12);
    Row::Time(Moment {
        parts: octet(b, 0),
        year: y as u16,
        month: octet(b, 3),
        day: octet(b, 4),
        hour: octet(b, 5),
        minute: octet(b, 6),
        second: octet(b, 7),
        nanoseconds: n as u32,
        west: is_minus(o, HALF_OF_2),
        offset: size_of(o, HALF_OF_2) as u16,
        mark: octet(b, 14),
    })
}

// A unit after its operator's byte.
fn unit_of(op: Op, b: &[u8]) -> Row
    ensures { UnitBody op b.now result }
{
    let v = number_at::<1>(b, 5);
    Row::Unit(
        op,
        place(b, 1),
        place(b, 3),
        is_minus(v, HALF_OF_1),
        size_of(v, HALF_OF_1),
    )
}

fn unit(b: &[u8]) -> Option<Row>
    ensures { BodyGives 15 b.now result }
{
    match Op::try_from(octet(b, 0)) {
        Ok(op) => Some(unit_of(op, b)),
        Err(_) => None,
    }
}

// How long the body of a row of this kind is, and 0 where there is no such kind. The last row's number is far from the others: it is tested apart, so that the compiler's table of jumps does not run up to it.
pub fn body_len(k: u8) -> usize
    ensures { result ≡ body_of k }
{
    if SET_END < k {
        return if k == LAST { 2 } else { 0 };
    }
    match k {
        ATTRIBUTE => 4,
        POINTER => 4,
        OPEN_OBJECT => 4,
        OPEN_GROUP => 4,
        INTEGER => 8,
        REAL => 10,
        TIME => LONGEST_ROW - 1,
        TEXT => 4,
        SYMBOL => 4,
        UNIT => 6,
        _ => 0,
    }
}

// The row of this kind with this body; nothing where no row is such. The last row is tested apart here too.
pub fn row_of(k: u8, b: &[u8]) -> Option<Row>
    ensures { BodyGives k b.now result }
{
    if SET_END < k {
        if k == LAST {
            return Some(Row::Last(place(b, 0)));
        }
        return None;
    }
    match k {
        ATTRIBUTE => Some(Row::Attribute(place(b, 0), place(b, 2))),
        POINTER => Some(Row::Pointer(place(b, 0), place(b, 2))),
        OPEN_OBJECT => Some(Row::Open(Kind::Object, place(b, 0), place(b, 2))),
        CLOSE_OBJECT => Some(Row::Close(Kind::Object)),
        OPEN_GROUP => Some(Row::Open(Kind::Group, place(b, 0), place(b, 2))),
        CLOSE_GROUP => Some(Row::Close(Kind::Group)),
        INTEGER => Some(integer(b)),
        REAL => Some(float(b)),
        TIME => Some(time(b)),
        TEXT => Some(Row::Text(place(b, 0), place(b, 2))),
        SYMBOL => Some(Row::Symbol(place(b, 0), place(b, 2))),
        UNIT => unit(b),
        SEQUENCE => Some(Row::Sequence),
        SEQUENCE_END => Some(Row::SequenceEnd),
        SET => Some(Row::Set),
        SET_END => Some(Row::SetEnd),
        _ => None,
    }
}
