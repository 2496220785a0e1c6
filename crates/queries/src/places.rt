// Rows found by walking the table: the row at an offset, and where a block ends. No offset is trusted: rows are passed one by one from the table's start, or
// from where a row starts.
ghost use Rattle.std.specs.Prelude.{◌≡◌, ◌≤◌, length};
ghost use Rattle.rules.proofs.Machine.Lookup.{way};
ghost use Rattle.rows.specs.Rows.{row_of};
ghost use Rattle.queries.specs.Walking.{RowFrom, way_of, PastBlock};

use rows::{Row, row_at};

// What the lookup does with a row.
#[derive(Clone, Copy)]
pub enum Way {
    Named(usize, usize),
    Plain,
    Opening,
    Closing,
    Ending,
}

// The row that starts at an offset, if one does.
pub fn row_from(table: &[u8], row: usize) -> Option<(Row, usize)>
    ensures { RowFrom table.now row result }
{
    let mut at = 0;
    while at < row {
        let Some((_, next)) = row_at(table, at) else {
            return None;
        };
        at = next;
    }
    if row < at {
        return None;
    }
    row_at(table, row)
}

// Not inlined: each copy would have a table of its own among the constant data.
#[inline(never)]
pub fn way_of(row: Row) -> Way
    ensures { result ≡ way_of (way (row_of row)) }
{
    match row {
        Row::Attribute(a, b) => Way::Named(a, b),
        Row::Open(_, _, _) => Way::Opening,
        Row::Close(_) => Way::Closing,
        Row::Last(_) => Way::Ending,
        _ => Way::Plain,
    }
}

// Past the row that closes the block whose rows begin at a place: a call on each inner block. The table's end where no row closes it.
pub fn past_block(table: &[u8], from: usize) -> usize
    requires { from ≤ length table.now }
    ensures { PastBlock table.now from result }
{
    let mut at = from;
    while at < table.len() {
        let Some((row, next)) = row_at(table, at) else {
            return table.len();
        };
        match way_of(row) {
            Way::Named(_, _) | Way::Plain => {
                at = next;
            }
            Way::Opening => {
                at = past_block(table, next);
            }
            Way::Closing => {
                return next;
            }
            Way::Ending => {
                return table.len();
            }
        }
    }
    table.len()
}
