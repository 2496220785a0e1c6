// An attribute by its name, from a row on within the block that the row stands in; blocks within are passed over whole.
ghost use Rattle.std.specs.Prelude.{◌≡◌};
ghost use Rattle.rules.specs.Asked.{Sought};
ghost use Rattle.rules.proofs.Machine.Queries.{is_line};
ghost use Rattle.rows.specs.Rows.{row_of};
ghost use Rattle.queries.specs.Answers.{found_said};
ghost use Rattle.queries.specs.Walking.{SeeksFrom, FindsFrom};

use crate::outcome::{At, NotFound};
use crate::places::{Way, past_block, row_from, way_of};
use classes::{LONGEST_LABEL, alike, part};
use rows::{Row, row_at};
use table::check;

// A row of kind 1 to 6 or 99.
fn is_line(row: Row) -> bool
    ensures { result ≡ is_line (row_of row) }
{
    matches!(
        row,
        Row::Attribute(_, _)
            | Row::Pointer(_, _)
            | Row::Open(_, _, _)
            | Row::Close(_)
            | Row::Last(_)
    )
}

// From where a row starts.
fn seek(label: &[u8], table: &[u8], name: &[u8], row: usize) -> Result<At, NotFound>
    ensures { SeeksFrom label.now table.now name.now row result }
{
    let mut at = row;
    while at < table.len() {
        let Some((r, next)) = row_at(table, at) else {
            return Err(NotFound::NoName);
        };
        match way_of(r) {
            Way::Named(a, b) => {
                if alike(part(label, a, b), name) {
                    return Ok(At { row: at });
                }
                at = next;
            }
            Way::Plain => {
                at = next;
            }
            Way::Opening => {
                at = past_block(table, next);
            }
            Way::Closing | Way::Ending => {
                return Err(NotFound::NoName);
            }
        }
    }
    Err(NotFound::NoName)
}

// In a proper table.
fn find_from(label: &[u8], table: &[u8], name: &[u8], row: usize) -> Result<At, NotFound>
    ensures { FindsFrom label.now table.now name.now row result }
{
    let Some((r, _)) = row_from(table, row) else {
        return Err(NotFound::NoLine);
    };
    if is_line(r) {
        return seek(label, table, name, row);
    }
    Err(NotFound::NoLine)
}

pub fn find(label: &[u8], table: &[u8], name: &[u8], row: usize) -> Result<At, NotFound>
    ensures { Sought label.now table.now name.now row (found_said result) }
{
    if LONGEST_LABEL < label.len() {
        return Err(NotFound::TooLong);
    }
    check(label, table)?;
    find_from(label, table, name, row)
}
