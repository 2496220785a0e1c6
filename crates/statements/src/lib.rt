// The reader: a label's bytes into the table, or the first fault.
#![tactic(auto)]

mod cursor; // cursor.rt: where a reading stands
mod outcome; // outcome.rt: what a reading answers
mod passes; // passes.rt: one pass over the label
mod stack; // stack.rt: the open blocks

ghost use Rattle.rules.specs.Modes.{base};
ghost use Rattle.rules.specs.Reading.{Answered};
ghost use Rattle.statements.specs.Answer.{said};

use classes::{LONGEST_LABEL, OWN_ROOM};
use cursor::start;
pub use outcome::{Accepted, Refusal};
use output::put_bytes;
use passes::pass;

// The table goes into a room of the reader's own first, so that a refusal leaves the lent one as it was without a second pass;
// of a longer table that room's part is copied, and a second pass goes on where the room was full, straight into the lent one.
pub fn read(label: &[u8], table: &mut [u8]) -> Result<Accepted, Refusal>
    ensures { Answered base label.now table.old (said result) table.new }
{
    if LONGEST_LABEL < label.len() {
        return Err(Refusal::TooLong);
    }
    let mut own = [0u8; OWN_ROOM];
    let first = pass(label, &mut own, start());
    let a = first.answer?;
    let n = a.length;
    if table.len() < n {
        return Err(Refusal::NoRoom(a));
    }
    if n <= OWN_ROOM {
        put_bytes(table, &own[0..n]);
        return Ok(a);
    }
    let full = first.full;
    let k = full.n;
    put_bytes(table, &own[0..k]);
    let rest = pass(label, table, full);
    rest.answer
}
