// The session book: a label is taken, and its session counted under the weekday of its START_TIME, or as undated.
#![tactic(auto)]

mod counts; // counts.rt: the eight counters
mod dates; // dates.rt: the weekday of a date
mod kinds; // kinds.rt: what the bytes of a table's rows tell
mod outcome; // outcome.rt: what a taking answers

ghost use Rattle.std.specs.Prelude.{◌≡◌, Err};
ghost use Rattle.rules.specs.Book.{Takes};
ghost use Rattle.book.specs.Answers.{book_of, said, TakenFull};
ghost use Rattle.book.specs.Sessions.{StartsAt, Counts};

use classes::part;
use counts::{one_more, total};
use kinds::{Way, counter_behind, is_start_time, row_length};
pub use outcome::Untaken;
use statements::{Accepted, Refusal, read};

// Sessions on each weekday from Monday on, and undated ones last.
#[derive(Clone, Copy)]
pub struct Book {
    pub counts: [u32; 8],
}

// What a taking answers, and the book after it.
#[derive(Clone, Copy)]
pub struct Taken {
    pub book: Book,
    pub answer: Result<Accepted, Untaken>,
}

// A book with so many sessions is full.
const FULL: u64 = 1000000;

// The counter of undated sessions.
const UNDATED: usize = 8;

// Where the first START_TIME that stands in no block has its row: rows are passed one by one, with the number of blocks that are open.
fn start_time(label: &[u8], table: &[u8]) -> Option<usize>
    ensures { StartsAt label.now table.now result }
{
    let mut at = 0;
    let mut depth: usize = 0;
    while at < table.len() {
        let kind = table[at];
        match Way::from(kind) {
            Way::Named => {
                if depth == 0 && is_start_time(label, table, at) {
                    return Some(at);
                }
            }
            Way::Plain => {}
            Way::Opening => depth += 1,
            Way::Closing => depth = depth.checked_sub(1)?,
            Way::Ending => return None,
        }
        at += row_length(kind);
    }
    None
}

// The counter of a session, by its label and the table of that.
fn counter(label: &[u8], table: &[u8]) -> usize
    ensures { Counts label.now table.now result }
{
    start_time(label, table).map_or(UNDATED, |at| counter_behind(table, at))
}

// A full book: the label is read into no room at all, which tells its refusal or the length that its table needs.
fn take_full(label: &[u8], room: usize) -> Untaken
    ensures { TakenFull label.now room result }
{
    let mut none = [0u8; 0];
    let Err(r) = read(label, &mut none) else {
        // No table is empty, but an empty one would fit any room.
        return Untaken::BookFull;
    };
    match r {
        Refusal::NoRoom(a) => {
            if a.length <= room {
                return Untaken::BookFull;
            }
            Untaken::Unread(r)
        }
        _ => Untaken::Unread(r),
    }
}

// What is refused leaves the book as it was.
fn kept(book: Book, why: Untaken) -> Taken
    ensures { (result.book ≡ book) × (result.answer ≡ Err why) }
{
    Taken {
        book,
        answer: Err(why),
    }
}

pub fn take(book: Book, label: &[u8], table: &mut [u8]) -> Taken
    ensures { Takes (book_of book) label.now table.old (said result.answer) (book_of result.book) table.new }
{
    let counts = book.counts;
    if FULL <= total(counts) {
        return kept(book, take_full(label, table.len()));
    }
    match read(label, table) {
        Err(r) => kept(book, Untaken::Unread(r)),
        Ok(a) => {
            let k = counter(label, part(table, 0, a.length));
            let counts = one_more(counts, k);
            Taken {
                book: Book { counts },
                answer: Ok(a),
            }
        }
    }
}
