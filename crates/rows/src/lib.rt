// The rows of the table: what a row holds, its bytes, and the row at a place of any table.
#![tactic(auto)]

mod numbers; // numbers.rt: numbers into bytes
mod shapes; // shapes.rt: a row of each shape into bytes
mod fields; // fields.rt: numbers out of bytes
mod bodies; // bodies.rt: a row out of its body

ghost use Rattle.std.specs.Prelude.{◌≡◌, ◌≤◌, length};
ghost use Rattle.rules.specs.Table.{open_kind, close_kind, encode};
ghost use Rattle.rows.specs.Rows.{kind_of, row_of, Wrote};
ghost use Rattle.rows.specs.Decoding.{Numbered, Decodes};

use bodies::{body_len, row_of};
use numbers::{encode_byte, twos8, twos16, twos64};
use shapes::{encode_integer, encode_last, encode_moment, encode_real, encode_span, encode_unit};
use words::{Moment, Real};

// The two kinds of block.
#[derive(Clone, Copy)]
pub enum Kind {
    Object,
    Group,
}

// So many blocks may be open, one in the other.
pub const DEEPEST: usize = 80;

// How a unit stands in its expression, with its number in the table.
#[derive(Clone, Copy)]
pub enum Op {
    First = 0,
    Times = 1,
    Divided = 2,
}

// A number that no operator has.
#[derive(Clone, Copy)]
pub struct UnknownOp;

impl TryFrom<u8> for Op {
    type Error = UnknownOp;

    ghost try_from_gives = { Numbered };

    fn try_from(number: u8) -> Result<Self, UnknownOp> {
        match number {
            0 => Ok(Op::First),
            1 => Ok(Op::Times),
            2 => Ok(Op::Divided),
            _ => Err(UnknownOp),
        }
    }
}

// What a scalar is a member of.
#[derive(Clone, Copy)]
pub enum Nest {
    Alone,
    Sequence,
    Row,
    Set,
}

// A row. Spans are start and end.
#[derive(Clone, Copy)]
pub enum Row {
    Attribute(usize, usize),
    Pointer(usize, usize),
    Open(Kind, usize, usize),
    Close(Kind),
    Integer(bool, u64),
    Float(Real),
    Time(Moment),
    Text(usize, usize),
    Symbol(usize, usize),
    Unit(Op, usize, usize, bool, u64),
    Sequence,
    SequenceEnd,
    Set,
    SetEnd,
    Last(usize),
}

// The bytes of the longest rows, those of dates and times.
pub const LONGEST_ROW: usize = 16;

// The kinds of rows, as the table has them.
pub const ATTRIBUTE: u8 = 1;

pub const POINTER: u8 = 2;

pub const OPEN_OBJECT: u8 = 3;

pub const CLOSE_OBJECT: u8 = 4;

pub const OPEN_GROUP: u8 = 5;

pub const CLOSE_GROUP: u8 = 6;

pub const INTEGER: u8 = 10;

pub const REAL: u8 = 11;

pub const TIME: u8 = 12;

pub const TEXT: u8 = 13;

pub const SYMBOL: u8 = 14;

pub const UNIT: u8 = 15;

pub const SEQUENCE: u8 = 20;

pub const SEQUENCE_END: u8 = 21;

pub const SET: u8 = 22;

pub const SET_END: u8 = 23;

pub const LAST: u8 = 99;

// How many bytes the row has, in one byte. The compiler lays these numbers into a table: of one byte each only where it does not inline.
#[inline(never)]
fn short_len(row: Row) -> u8
    ensures { result ≡ length (encode (row_of row)) }
{
    match row {
        Row::Attribute(_, _) => 5,
        Row::Pointer(_, _) => 5,
        Row::Open(_, _, _) => 5,
        Row::Close(_) => 1,
        Row::Integer(_, _) => 9,
        Row::Float(_) => 11,
        Row::Time(_) => LONGEST_ROW as u8,
        Row::Text(_, _) => 5,
        Row::Symbol(_, _) => 5,
        Row::Unit(_, _, _, _, _) => 7,
        Row::Sequence => 1,
        Row::SequenceEnd => 1,
        Row::Set => 1,
        Row::SetEnd => 1,
        Row::Last(_) => 3,
    }
}

// How many bytes the row has.
pub fn encoded_len(row: Row) -> usize
    ensures { result ≡ length (encode (row_of row)) }
{
    short_len(row) as usize
}

// The kind of the row that opens a block.
pub fn open_kind(k: Kind) -> u8
    ensures { result ≡ open_kind (kind_of k) }
{
    match k {
        Kind::Object => OPEN_OBJECT,
        Kind::Group => OPEN_GROUP,
    }
}

// The kind of the row that closes it.
pub fn close_kind(k: Kind) -> u8
    ensures { result ≡ close_kind (kind_of k) }
{
    match k {
        Kind::Object => CLOSE_OBJECT,
        Kind::Group => CLOSE_GROUP,
    }
}

// The row at the start of the room that is lent; its length.
pub fn encode(out: &mut [u8], row: Row) -> usize
    requires { length (encode (row_of row)) ≤ length out.old }
    ensures { Wrote (encode (row_of row)) out.old out.new result }
{
    match row {
        Row::Attribute(a, b) => encode_span(out, ATTRIBUTE, a, b),
        Row::Pointer(a, b) => encode_span(out, POINTER, a, b),
        Row::Open(k, a, b) => encode_span(out, open_kind(k), a, b),
        Row::Close(k) => encode_byte(out, close_kind(k)),
        Row::Integer(m, v) => encode_integer(out, twos64(m, v)),
        Row::Float(x) => encode_real(out, twos64(x.minus, x.number), twos16(x.below, x.power)),
        Row::Time(x) => encode_moment(out, x, twos16(x.west, x.offset)),
        Row::Text(a, b) => encode_span(out, TEXT, a, b),
        Row::Symbol(a, b) => encode_span(out, SYMBOL, a, b),
        Row::Unit(op, a, b, m, v) => encode_unit(out, op as u8, a, b, twos8(m, v)),
        Row::Sequence => encode_byte(out, SEQUENCE),
        Row::SequenceEnd => encode_byte(out, SEQUENCE_END),
        Row::Set => encode_byte(out, SET),
        Row::SetEnd => encode_byte(out, SET_END),
        Row::Last(a) => encode_last(out, a),
    }
}

// The row at a place of a table and the place after it; nothing past the table's end, of a row that is cut short, and of bytes that are no row.
pub fn row_at(table: &[u8], at: usize) -> Option<(Row, usize)>
    ensures { Decodes table.now at result }
{
    let n = table.len();
    if n <= at {
        return None;
    }
    let k = table[at];
    let e = body_len(k);
    if n - at <= e {
        return None;
    }
    let next = at + 1 + e;
    let row = row_of(k, &table[at + 1..next])?;
    Some((row, next))
}
