// One pass over the table's rows: each written into the room that is left after the row before it.
ghost use Rattle.std.specs.Prelude.{◌≤◌, length, Ok};
ghost use Rattle.rules.specs.Reading.{longest};
ghost use Rattle.table.specs.Judging.{Judges};
ghost use Rattle.writer.specs.Passing.{BlocksAfter, Nests, PassWrites};
ghost use Rattle.rows.specs.Rows.{deepest};

use blocks::{Blocks, name_of, no_blocks, pop, push};
use classes::LONGEST_LABEL;
use output::put_bytes;
use printing::{Around, Prior, prior_of, put_row};
use rows::{DEEPEST, Row, row_at};

// The blocks that are open after a row.
fn blocks_after(b: Blocks, row: Row) -> Blocks
    requires { b.depth ≤ deepest }
    ensures { BlocksAfter b row result }
{
    match row {
        Row::Open(k, x, y) => {
            if DEEPEST <= b.depth {
                return b;
            }
            if LONGEST_LABEL < x {
                return b;
            }
            if LONGEST_LABEL < y {
                return b;
            }
            push(b, k, x, y)
        }
        Row::Close(_) => pop(b),
        _ => b,
    }
}

// Whether a row opens or closes a block.
fn nests(row: Row) -> bool
    ensures { Nests row result }
{
    matches!(row, Row::Open(_, _, _) | Row::Close(_))
}

// The rows are laid as far as the room reaches; the pass stops with the row that takes the count over 65,535.
pub fn pass(label: &[u8], lent: &[u8], out: &mut [u8]) -> usize
    requires { (length label.now ≤ longest) × Judges label.now lent.now (Ok tt) }
    ensures { PassWrites label.now lent.now out.old out.new result }
{
    let mut around = Around {
        prior: Prior::Start,
        depth: 0,
        from: 0,
        upto: 0,
    };
    let mut b = no_blocks();
    let mut at = 0;
    let mut n = 0usize;
    while at < lent.len() {
        // in a proper table there is a row
        let Some((row, next)) = row_at(lent, at) else {
            return n;
        };
        let k = n.min(out.len());
        n += put_row(&mut out[k..], label, around, row);
        if LONGEST_LABEL < n {
            return n;
        }
        around.prior = prior_of(row);
        at = next;
        // only a row that opens or closes a block is worth a copy of the arrays
        if !nests(row) {
            continue;
        }
        b = blocks_after(b, row);
        let (from, upto) = name_of(b);
        around.depth = b.depth;
        around.from = from;
        around.upto = upto;
    }
    let k = n.min(out.len());
    n + put_bytes(&mut out[k..], b"\r\n")
}
