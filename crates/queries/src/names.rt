// The name of a row: its own stretch of the label.
ghost use Rattle.std.specs.Prelude.{◌≡◌};
ghost use Rattle.rows.specs.Rows.{row_of};
ghost use Rattle.queries.specs.Answers.{Views, ViewsIn};
ghost use Rattle.queries.specs.Walking.{name_span, stretch_of, StretchFrom};

use crate::places::row_from;
use classes::LONGEST_LABEL;
use rows::Row;
use table::check;

// A stretch of the label.
#[derive(Clone, Copy)]
pub struct Stretch {
    pub start: usize,
    pub end: usize,
}

// The empty stretch at the label's start.
const NOWHERE: Stretch = Stretch { start: 0, end: 0 };

fn stretch_of(row: Row) -> Stretch
    ensures { result ≡ stretch_of (name_span (row_of row)) }
{
    match row {
        Row::Attribute(a, b)
        | Row::Pointer(a, b)
        | Row::Open(_, a, b)
        | Row::Symbol(a, b)
        | Row::Unit(_, a, b, _, _) => Stretch { start: a, end: b },
        _ => NOWHERE,
    }
}

// In a proper table.
fn stretch_from(table: &[u8], row: usize) -> Stretch
    ensures { StretchFrom table.now row result }
{
    match row_from(table, row) {
        None => NOWHERE,
        Some((r, _)) => stretch_of(r),
    }
}

// Where the name stands; the empty stretch at the label's start where there is none to show.
pub fn name_span(label: &[u8], table: &[u8], row: usize) -> Stretch
    ensures { Views label.now table.now row result }
{
    if LONGEST_LABEL < label.len() {
        return NOWHERE;
    }
    if check(label, table).is_err() {
        return NOWHERE;
    }
    stretch_from(table, row)
}

pub fn name<'a>(label: &'a [u8], table: &[u8], row: usize) -> &'a [u8]
    ensures { ViewsIn label.now table.now row result.now }
{
    let s = name_span(label, table, row);
    let a = s.start;
    let b = s.end;
    &label[a..b]
}
