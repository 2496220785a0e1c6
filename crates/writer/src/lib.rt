// The writer: label bytes and a table into a canonical label, or why not.
#![tactic(auto)]

mod outcome; // outcome.rt: what a writing answers
mod passes; // passes.rt: one pass over the table's rows

ghost use Rattle.std.specs.Prelude.{◌≤◌, length, Ok};
ghost use Rattle.rules.specs.Reading.{longest};
ghost use Rattle.rules.specs.Writing.{Writes};
ghost use Rattle.table.specs.Judging.{Judges};
ghost use Rattle.writer.specs.Answer.{said};

use classes::{LONGEST_LABEL, OWN_ROOM};
pub use outcome::{Refusal, Written};
use output::put_bytes;
use passes::pass;
use table::check;

// A proper table. One pass into an array of its own spares the room until the label's length is known; a longer label takes a second pass into the room.
fn write_proper(label: &[u8], lent: &[u8], out: &mut [u8]) -> Result<Written, Refusal>
    requires { (length label.now ≤ longest) × Judges label.now lent.now (Ok tt) }
    ensures { Writes label.now lent.now out.old (said result) out.new }
{
    let mut own = [0u8; OWN_ROOM];
    let n = pass(label, lent, &mut own);
    if LONGEST_LABEL < n {
        return Err(Refusal::TooLongWritten);
    }
    if out.len() < n {
        return Err(Refusal::NoRoom(n));
    }
    if n <= OWN_ROOM {
        put_bytes(out, &own[0..n]);
        return Ok(Written { length: n });
    }
    let m = pass(label, lent, out);
    Ok(Written { length: m })
}

pub fn write(label: &[u8], table: &[u8], out: &mut [u8]) -> Result<Written, Refusal>
    ensures { Writes label.now table.now out.old (said result) out.new }
{
    if LONGEST_LABEL < label.len() {
        return Err(Refusal::TooLong);
    }
    check(label, table)?;
    write_proper(label, table, out)
}
