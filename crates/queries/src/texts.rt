// The text of a row, reassembled into the room that is lent.
ghost use Rattle.std.specs.Prelude.{◌≡◌};
ghost use Rattle.rules.specs.Asked.{Texted};
ghost use Rattle.rules.specs.Meaning.{reassemble};
ghost use Rattle.rules.proofs.Machine.Queries.{span_of_text, fitted};
ghost use Rattle.rules.proofs.Machine.Returns.{returns};
ghost use Rattle.rows.specs.Rows.{row_of};
ghost use Rattle.queries.specs.Answers.{text_said};
ghost use Rattle.queries.specs.Walking.{shown_of, TextFrom};

use crate::outcome::{Given, NoText};
use crate::places::row_from;
use classes::{LONGEST_LABEL, part};
use output::put_reassembled;
use rows::Row;
use table::check;

// The span of a row's text, where it is a text.
fn text_of(row: Row) -> Option<(usize, usize)>
    ensures { result ≡ shown_of (span_of_text (row_of row)) }
{
    match row {
        Row::Text(a, b) => Some((a, b)),
        _ => None,
    }
}

// Measured before it is written, so that room too short stays as it is.
fn put_whole(room: &mut [u8], w: &[u8]) -> Result<Given, NoText>
    ensures { returns (text_said result) room.new ≡ fitted room.old (reassemble w.now) }
{
    let n = put_reassembled(&mut room[..0], w);
    if room.len() < n {
        return Err(NoText::NoRoom(n));
    }
    let m = put_reassembled(room, w);
    Ok(Given { length: m })
}

// In a proper table.
fn text_from(label: &[u8], table: &[u8], row: usize, room: &mut [u8]) -> Result<Given, NoText>
    ensures { TextFrom label.now table.now row room.old result room.new }
{
    let Some((r, _)) = row_from(table, row) else {
        return Err(NoText::NoRow);
    };
    match text_of(r) {
        Some((a, b)) => put_whole(room, part(label, a, b)),
        None => Err(NoText::NoRow),
    }
}

pub fn text(label: &[u8], table: &[u8], row: usize, room: &mut [u8]) -> Result<Given, NoText>
    ensures { Texted label.now table.now row room.old (text_said result) room.new }
{
    if LONGEST_LABEL < label.len() {
        return Err(NoText::TooLong);
    }
    check(label, table)?;
    text_from(label, table, row, room)
}
