// The written label: what each row writes after the row before it.
#![tactic(auto)]

mod lines; // lines.rt: what stands between rows
mod values; // values.rt: texts, symbols and units
mod headings; // headings.rt: names and blocks

ghost use Rattle.std.specs.Prelude.{map, ◌≤◌, length};
ghost use Rattle.rules.specs.Bytes.{fold};
ghost use Rattle.rules.specs.Reading.{longest};
ghost use Rattle.classes.specs.Places.{part};
ghost use Rattle.rows.specs.Rows.{deepest};
ghost use Rattle.output.specs.Puts.{Puts};
ghost use Rattle.printing.specs.Lines.{prior_of, before, own, RowPut, LinePut, PriorAfter};

use classes::part;
use headings::{put_closing, put_named, put_opening, put_pointed};
use lines::{put_lead, put_line, put_units_end};
use numerals::{put_decimal, put_moment, put_real};
use output::{put_byte, put_bytes};
use rows::Row;
use values::{put_marked, put_quoted, put_unit};

// What the row before leaves: nothing yet, in the label or in its bracket; a line's heading; a scalar, or a bracket that closes; a unit.
#[derive(Clone, Copy)]
pub enum Prior {
    Start,
    Heading,
    Member,
    Factor,
}

// Where a row stands: after a row that leaves this, within so many blocks, the innermost of which has its name at a span of the label.
#[derive(Clone, Copy)]
pub struct Around {
    pub prior: Prior,
    pub depth: usize,
    pub from: usize,
    pub upto: usize,
}

// What a row is to the row after it. Not inlined: its table then has one byte for each kind of row.
#[inline(never)]
pub fn prior_of(row: Row) -> Prior
    ensures { PriorAfter row (prior_of result) }
{
    match row {
        Row::Attribute(_, _) | Row::Pointer(_, _) => Prior::Heading,
        Row::Open(_, _, _) | Row::Close(_) | Row::Last(_) => Prior::Heading,
        Row::Integer(_, _) | Row::Float(_) | Row::Time(_) => Prior::Member,
        Row::Text(_, _) | Row::Symbol(_, _) => Prior::Member,
        Row::Unit(_, _, _, _, _) => Prior::Factor,
        Row::Sequence | Row::Set => Prior::Start,
        Row::SequenceEnd | Row::SetEnd => Prior::Member,
    }
}

// What stands before a row's own bytes. A closing line stands as deep as its opening line.
fn put_before(out: &mut [u8], q: Prior, d: usize, row: Row) -> usize
    requires { d ≤ deepest }
    ensures { Puts (before (prior_of q) d row) out.old out.new result × (result ≤ 163) }
{
    match row {
        Row::Attribute(_, _) | Row::Pointer(_, _) => put_line(out, q, d),
        Row::Open(_, _, _) | Row::Last(_) => put_line(out, q, d),
        Row::Close(_) => put_line(out, q, d.saturating_sub(1)),
        Row::Integer(_, _) | Row::Float(_) | Row::Time(_) => put_lead(out, q),
        Row::Text(_, _) | Row::Symbol(_, _) => put_lead(out, q),
        Row::Sequence | Row::Set => put_lead(out, q),
        Row::SequenceEnd | Row::SetEnd => put_units_end(out, q),
        Row::Unit(_, _, _, _, _) => 0,
    }
}

// A row's own bytes, behind what stands before it.
fn put_own(out: &mut [u8], label: &[u8], at: Around, row: Row) -> usize
    requires { length label.now ≤ longest }
    ensures { Puts (own label.now at.depth (map fold (part label.now at.from at.upto)) row) out.old out.new result × (result ≤ 65600) }
{
    match row {
        Row::Attribute(a, b) => put_named(out, part(label, a, b)),
        Row::Pointer(a, b) => put_pointed(out, part(label, a, b)),
        Row::Open(k, a, b) => put_opening(out, k, part(label, a, b)),
        Row::Close(k) => put_closing(out, at.depth, k, part(label, at.from, at.upto)),
        Row::Integer(m, v) => put_decimal(out, m, v),
        Row::Float(x) => put_real(out, x),
        Row::Time(x) => put_moment(out, x),
        Row::Text(a, b) => put_quoted(out, part(label, a, b)),
        Row::Symbol(a, b) => put_marked(out, part(label, a, b)),
        Row::Unit(op, a, b, m, v) => put_unit(out, op, part(label, a, b), m, v),
        Row::Sequence => put_byte(out, b'('),
        Row::SequenceEnd => put_byte(out, b')'),
        Row::Set => put_byte(out, b'{'),
        Row::SetEnd => put_byte(out, b'}'),
        Row::Last(_) => put_bytes(out, b"END"),
    }
}

// A row where it stands.
pub fn put_row(out: &mut [u8], label: &[u8], at: Around, row: Row) -> usize
    requires { (at.depth ≤ deepest) × (length label.now ≤ longest) }
    ensures row { RowPut label.now (prior_of at.prior) at.depth (map fold (part label.now at.from at.upto)) row out.old out.new result }
    ensures line { LinePut label.now (prior_of at.prior) at.depth (map fold (part label.now at.from at.upto)) row out.old out.new result }
{
    let a = put_before(out, at.prior, at.depth, row);
    let k = a.min(out.len());
    a + put_own(&mut out[k..], label, at, row)
}
