// What stands between one row and the next: the end of units, commas, line ends and indents. Each at the start of the room that is lent.
ghost use Rattle.std.specs.Prelude.{◌++◌, ◌≤◌};
ghost use Rattle.rules.specs.Written.{units_end, lead, line_break, indent, new_line};
ghost use Rattle.rows.specs.Rows.{deepest};
ghost use Rattle.output.specs.Puts.{Puts};
ghost use Rattle.printing.specs.Lines.{prior_of};

use crate::Prior;
use output::{put_byte, put_bytes};

// The last unit is closed by whatever row comes next.
pub fn put_units_end(out: &mut [u8], q: Prior) -> usize
    ensures { Puts (units_end (prior_of q)) out.old out.new result × (result ≤ 1) }
{
    match q {
        Prior::Start | Prior::Heading | Prior::Member => 0,
        Prior::Factor => put_byte(out, b'>'),
    }
}

// What stands between `NAME =` and its value, between members, and between the rows of a sequence of sequences.
fn put_gap(out: &mut [u8], q: Prior) -> usize
    ensures { Puts (lead (prior_of q)) out.old out.new result × (result ≤ 2) }
{
    match q {
        Prior::Start => 0,
        Prior::Heading => put_bytes(out, b" "),
        Prior::Member | Prior::Factor => put_bytes(out, b", "),
    }
}

// All that stands before a value.
pub fn put_lead(out: &mut [u8], q: Prior) -> usize
    ensures { Puts (units_end (prior_of q) ++ lead (prior_of q)) out.old out.new result × (result ≤ 3) }
{
    let a = put_units_end(out, q);
    let k = a.min(out.len());
    a + put_gap(&mut out[k..], q)
}

fn put_line_break(out: &mut [u8], q: Prior) -> usize
    ensures { Puts (line_break (prior_of q)) out.old out.new result × (result ≤ 2) }
{
    match q {
        Prior::Start => 0,
        Prior::Heading | Prior::Member | Prior::Factor => put_bytes(out, b"\r\n"),
    }
}

fn put_indent(out: &mut [u8], d: usize) -> usize
    requires { d ≤ deepest }
    ensures { Puts (indent d) out.old out.new result × (result ≤ 160) }
{
    let mut n = 0usize;
    for _ in 0..d {
        let k = n.min(out.len());
        n += put_bytes(&mut out[k..], b"  ");
    }
    n
}

// All that stands before a statement's first word, d blocks deep.
pub fn put_line(out: &mut [u8], q: Prior, d: usize) -> usize
    requires { d ≤ deepest }
    ensures { Puts (units_end (prior_of q) ++ new_line (prior_of q) d) out.old out.new result × (result ≤ 163) }
{
    let a = put_units_end(out, q);
    let k = a.min(out.len());
    let b = a + put_line_break(&mut out[k..], q);
    let j = b.min(out.len());
    b + put_indent(&mut out[j..], d)
}
