// The check of a table: its rows one after another, of each its value, its span and its order.
#![tactic(auto)]

mod values; // values.rt: the value of a row
mod spans; // spans.rt: the span of a row
mod order; // order.rt: the order of rows

ghost use Rattle.std.specs.Prelude.{◌≡◌, ◌&&◌, ◌≤◌, length};
ghost use Rattle.rules.specs.Reading.{longest};
ghost use Rattle.rules.proofs.Machine.Checks.{value_test, span_test};
ghost use Rattle.rows.specs.Rows.{row_of};
ghost use Rattle.table.specs.Judging.{Judges};

use blocks::{no_blocks, top_of};
use order::{nested, next, sort_of};
use rows::{CLOSE_GROUP, DEEPEST, Nest, OPEN_OBJECT, Row, row_at};
use spans::good_span;
use values::good_value;

// What is awaited. After a value that stands alone a statement is awaited.
#[derive(Clone, Copy)]
pub enum Await {
    After(Nest),
    Number(Nest),
    Units(Nest),
    Value,
    First,
    SetFirst,
    InRow,
    Rows,
    End,
}

// The place where a table stops being proper.
#[derive(Clone, Copy)]
pub struct Improper(pub usize);

// Whether a row's value and span are as they should be; its order is another matter.
fn good(label: &[u8], row: Row) -> bool
    requires { length label.now ≤ longest }
    ensures { result ≡ (value_test (row_of row) && span_test label.now (row_of row)) }
{
    let v = good_value(row);
    let s = good_span(label, row);
    v & s
}

pub fn check(label: &[u8], table: &[u8]) -> Result<(), Improper>
    requires { length label.now ≤ longest }
    ensures { Judges label.now table.now result }
{
    let mut t = Await::After(Nest::Alone);
    let mut b = no_blocks();
    let mut top = None;
    let mut at = 0;
    while at < table.len() {
        let Some((row, end)) = row_at(table, at) else {
            return Err(Improper(at));
        };
        if !good(label, row) {
            return Err(Improper(at));
        }
        let n = sort_of(row);
        let Some(u) = next(t, n, top, DEEPEST <= b.depth) else {
            return Err(Improper(at));
        };
        t = u;
        at = end;
        // only a row that opens or closes a block is worth a copy of the arrays
        if (n < OPEN_OBJECT) | (CLOSE_GROUP < n) {
            continue;
        }
        b = nested(b, n);
        top = top_of(b);
    }
    if let Await::End = t {
        return Ok(());
    }
    Err(Improper(at))
}
