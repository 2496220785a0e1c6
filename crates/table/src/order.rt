// The order of rows: what may come next, by the sort of a row and by what is known of the open blocks.
ghost use Rattle.std.specs.Prelude.{◌≡◌, ◌<◌, ◌≤◌};
ghost use Rattle.rules.proofs.Machine.Rows.{unit_sort, sort};
ghost use Rattle.rows.specs.Rows.{op_of, row_of, deepest};
ghost use Rattle.table.specs.Ordering.{sort_code, opened_to, closing_to, statement_to, scalar_to, member_to, after_to, value_to, sequences_to, next_of, Nesting};

use crate::Await;
use blocks::{Blocks, pop, push};
use rows::{
    ATTRIBUTE, CLOSE_GROUP, CLOSE_OBJECT, INTEGER, Kind, LAST, Nest, OPEN_GROUP, OPEN_OBJECT, Op,
    POINTER, Row, SEQUENCE, SEQUENCE_END, SET, SET_END, TEXT, UNIT, close_kind, open_kind,
};

// The sort of a unit that is not the first: no row has this kind.
const FURTHER_UNIT: u8 = 16;

fn unit_sort(op: Op) -> u8
    ensures { result ≡ sort_code (unit_sort (op_of op)) }
{
    match op {
        Op::First => UNIT,
        Op::Times => FURTHER_UNIT,
        Op::Divided => FURTHER_UNIT,
    }
}

// The sort of a row: its kind, but that of an integer for all numbers, that of a text for all other scalars, and one of its own for a unit
// that is not the first.
pub fn sort_of(row: Row) -> u8
    ensures { result ≡ sort_code (sort (row_of row)) }
{
    match row {
        Row::Attribute(_, _) => ATTRIBUTE,
        Row::Pointer(_, _) => POINTER,
        Row::Open(k, _, _) => open_kind(k),
        Row::Close(k) => close_kind(k),
        Row::Integer(_, _) => INTEGER,
        Row::Float(_) => INTEGER,
        Row::Time(_) => TEXT,
        Row::Text(_, _) => TEXT,
        Row::Symbol(_, _) => TEXT,
        Row::Unit(op, _, _, _, _) => unit_sort(op),
        Row::Sequence => SEQUENCE,
        Row::SequenceEnd => SEQUENCE_END,
        Row::Set => SET,
        Row::SetEnd => SET_END,
        Row::Last(_) => LAST,
    }
}

fn opened(full: bool) -> Option<Await>
    ensures { result ≡ opened_to full }
{
    if full {
        return None;
    }
    Some(Await::After(Nest::Alone))
}

// A closing row in its own block, and the last row outside all.
fn closing(n: u8, top: Option<Kind>) -> Option<Await>
    ensures { result ≡ closing_to n top }
{
    match top {
        None => {
            if n == LAST {
                return Some(Await::End);
            }
            None
        }
        Some(kind) => {
            if n == close_kind(kind) {
                return Some(Await::After(Nest::Alone));
            }
            None
        }
    }
}

fn statement(n: u8, top: Option<Kind>, full: bool) -> Option<Await>
    ensures { result ≡ statement_to n top full }
{
    if n == ATTRIBUTE {
        return Some(Await::Value);
    }
    if n == POINTER {
        return Some(Await::Value);
    }
    if n == OPEN_OBJECT {
        return opened(full);
    }
    if n == OPEN_GROUP {
        return opened(full);
    }
    closing(n, top)
}

fn scalar(n: u8, c: Nest) -> Option<Await>
    ensures { result ≡ scalar_to n c }
{
    if n == INTEGER {
        return Some(Await::Number(c));
    }
    if n == TEXT {
        return Some(Await::After(c));
    }
    None
}

// A scalar, or the row of sort e that leads to t.
fn member(n: u8, c: Nest, e: u8, t: Await) -> Option<Await>
    ensures { result ≡ member_to n c e t }
{
    if n == e {
        return Some(t);
    }
    scalar(n, c)
}

// What may follow a value that stands alone or in a group of values.
fn after(n: u8, c: Nest, top: Option<Kind>, full: bool) -> Option<Await>
    ensures { result ≡ after_to n c top full }
{
    match c {
        Nest::Alone => statement(n, top, full),
        Nest::Sequence => member(n, Nest::Sequence, SEQUENCE_END, Await::After(Nest::Alone)),
        Nest::Row => member(n, Nest::Row, SEQUENCE_END, Await::Rows),
        Nest::Set => member(n, Nest::Set, SET_END, Await::After(Nest::Alone)),
    }
}

fn value(n: u8) -> Option<Await>
    ensures { result ≡ value_to n }
{
    if n == SEQUENCE {
        return Some(Await::First);
    }
    if n == SET {
        return Some(Await::SetFirst);
    }
    scalar(n, Nest::Alone)
}

// Between the rows of a sequence of sequences.
fn sequences(n: u8) -> Option<Await>
    ensures { result ≡ sequences_to n }
{
    if n == SEQUENCE {
        return Some(Await::InRow);
    }
    if n == SEQUENCE_END {
        return Some(Await::After(Nest::Alone));
    }
    None
}

// What is awaited after a row of sort n; nothing where that row cannot come.
pub fn next(t: Await, n: u8, top: Option<Kind>, full: bool) -> Option<Await>
    ensures { result ≡ next_of t n top full }
{
    match t {
        Await::After(c) => after(n, c, top, full),
        Await::Number(c) => {
            if n == UNIT {
                return Some(Await::Units(c));
            }
            after(n, c, top, full)
        }
        Await::Units(c) => {
            if n == FURTHER_UNIT {
                return Some(Await::Units(c));
            }
            after(n, c, top, full)
        }
        Await::Value => value(n),
        Await::First => member(n, Nest::Sequence, SEQUENCE, Await::InRow),
        Await::SetFirst => member(n, Nest::Set, SET_END, Await::After(Nest::Alone)),
        Await::InRow => scalar(n, Nest::Row),
        Await::Rows => sequences(n),
        Await::End => None,
    }
}

// The open blocks after a row of sort n. Their kinds alone matter to the order, so no name's place is kept.
pub fn nested(b: Blocks, n: u8) -> Blocks
    requires { (n ≡ 3 → b.depth < deepest) × (n ≡ 5 → b.depth < deepest) × (b.depth ≤ deepest) }
    ensures { Nesting n b result }
{
    if n == OPEN_OBJECT {
        return push(b, Kind::Object, 0, 0);
    }
    if n == OPEN_GROUP {
        return push(b, Kind::Group, 0, 0);
    }
    if n == CLOSE_OBJECT {
        return pop(b);
    }
    if n == CLOSE_GROUP {
        return pop(b);
    }
    b
}
