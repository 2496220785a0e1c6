// One pass over the label: each element stepped over, what it gives added to the table, and the blocks opened and closed as rows ask.
ghost use Rattle.std.specs.Prelude.{◌≡◌, ◌*◌, ◌≤◌, length};
ghost use Rattle.rules.specs.Reading.{longest};
ghost use Rattle.rules.specs.Table.{encode, table};
ghost use Rattle.rows.specs.Rows.{row_of, longest_row};
ghost use Rattle.elements.specs.Faults.{code_of};
ghost use Rattle.steps.specs.Steps.{number_of, row_given, rows_of};
ghost use Rattle.statements.specs.Passes.{Refuses, Added, Reached, OnePass};

use crate::cursor::{Cursor, standing};
use crate::stack::{seen, with_name};
use crate::{Accepted, Refusal};
use blocks::{pop, push};
use elements::{Broken, Fault, Found, next};
use rows::{LONGEST_ROW, Row, encode, encoded_len};
use steps::{Misfit, start_of, step};

// The answer of a pass; and where the room was full, the last place where the table so far fitted it, if it came to be longer.
#[derive(Clone, Copy)]
pub struct Run {
    pub answer: Result<Accepted, Refusal>,
    pub full: Cursor,
}

// The refusal of a fault.
impl From<Broken> for Refusal {
    ghost from_gives = { λ b r. Refuses (code_of b.0) b.1 r };

    fn from(b: Broken) -> Refusal {
        let Broken(fault, place) = b;
        match fault {
            Fault::ForeignByte => Refusal::ForeignByte(place),
            Fault::LeftOpen => Refusal::LeftOpen(place),
            Fault::NoForm => Refusal::NoForm(place),
            Fault::PastLimit => Refusal::PastLimit(place),
        }
    }
}

// The refusal of an element that the step does not take, at its place.
fn misfit(m: Misfit, place: usize) -> Refusal
    ensures { Refuses (number_of m) place result }
{
    match m {
        Misfit::PastLimit => Refusal::PastLimit(place),
        Misfit::Misplaced => Refusal::Misplaced(place),
        Misfit::OtherName => Refusal::OtherName(place),
        Misfit::TooDeep => Refusal::TooDeep(place),
        Misfit::EndNotSetOff => Refusal::EndNotSetOff(place),
    }
}

// The row at n, where it fits; the table's length with it either way.
fn add_row(room: &mut [u8], n: usize, row: Row) -> usize
    requires { n ≤ longest_row * longest }
    ensures { Added (encode (row_of row)) n room.old room.new result }
{
    let k = encoded_len(row);
    if room.len() < n {
        return n + k;
    }
    if room.len() - n < k {
        return n + k;
    }
    let m = encode(&mut room[n..], row);
    n + m
}

// The row that an element gives, if any, likewise.
fn add_rows(room: &mut [u8], n: usize, given: Option<Row>) -> usize
    requires { n ≤ longest_row * longest }
    ensures { Added (table (rows_of (row_given given))) n room.old room.new result }
{
    match given {
        None => n,
        Some(row) => add_row(room, n, row),
    }
}

fn ended(answer: Result<Accepted, Refusal>, full: Cursor) -> Run
    ensures { (result.answer ≡ answer) × (result.full ≡ full) }
{
    Run { answer, full }
}

// From a cursor on to END or the first fault. The table's bytes are in the room where they fit; where they do not, or on refusal, only those
// up to `full`, which is noted before the first element whose rows do not fit: none gives more bytes than the longest row has.
pub fn pass(label: &[u8], room: &mut [u8], from: Cursor) -> Run
    requires { (length label.now ≤ longest) × Reached label.now room.old from }
    ensures { OnePass label.now room.old room.new result }
{
    let mut state = from.state;
    let mut blocks = from.blocks;
    let mut at = from.at;
    let mut n = from.n;
    let mut full = from;
    loop {
        if (n <= room.len()) & (room.len() < n + LONGEST_ROW) {
            full = standing(state, blocks, at, n);
        }
        let found = match next(label, at) {
            Err(b) => return ended(Err(Refusal::from(b)), full),
            Ok(found) => found,
        };
        let Some(Found(e, end)) = found else {
            return ended(Err(Refusal::EndsEarly(label.len())), full);
        };
        match step(label, state, e) {
            Err(m) => return ended(Err(misfit(m, start_of(e))), full),
            Ok(w) => {
                at = end;
                n = add_rows(room, n, w.row);
                match w.row {
                    None => state = w.state,
                    Some(row) => match row {
                        Row::Last(_) => {
                            let accepted = Accepted {
                                place: end,
                                length: n,
                            };
                            return ended(Ok(accepted), full);
                        }
                        Row::Open(k, a, b) => {
                            blocks = push(blocks, k, a, b);
                            state = seen(w.state, blocks);
                        }
                        Row::Close(_) => {
                            state = with_name(w.state, blocks);
                            blocks = pop(blocks);
                            state = seen(state, blocks);
                        }
                        _ => state = w.state,
                    },
                }
            }
        }
    }
}
