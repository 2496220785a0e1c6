// What the bytes of a table tell: how long a row is and whether it opens or closes a block, by its kind; the name of an attribute; and the
// counter of the value behind one.
ghost use Rattle.std.specs.Prelude.{◌≡◌, ◌+◌, ◌*◌, ◌≤◌, ◌<◌, length};
ghost use Rattle.rules.specs.Book.{start_time};
ghost use Rattle.rules.proofs.Machine.Lookup.{has_name};
ghost use Rattle.book.specs.Kinds.{way_of, length_of, number_at, span_at, weekday_at, counter_behind};

use crate::UNDATED;
use crate::dates::weekday;
use classes::{alike, byte_at, part};

// What is done with a row where an attribute is sought that stands in no block.
#[derive(Clone, Copy)]
pub enum Way {
    Named,
    Plain,
    Opening,
    Closing,
    Ending,
}

// The kinds of rows that are told apart here: attribute, OBJECT and GROUP with their ends, integer, real, date or time, unit, last row.
const ATTRIBUTE: u8 = 1;

const OBJECT: u8 = 3;

const END_OBJECT: u8 = 4;

const GROUP: u8 = 5;

const END_GROUP: u8 = 6;

const INTEGER: u8 = 10;

const REAL: u8 = 11;

const MOMENT: u8 = 12;

const UNIT: u8 = 15;

const LAST: u8 = 99;

// The parts of a date or time: a date, or both.
const DATE: u8 = 1;

const DATE_AND_TIME: u8 = 3;

// The last row's number is far from the others: it is tested apart, so that no table of jumps runs up to it.
impl From<u8> for Way {
    ghost from_gives = { λ kind way. way ≡ way_of kind };

    fn from(kind: u8) -> Way {
        if kind == LAST {
            return Way::Ending;
        }
        match kind {
            ATTRIBUTE => Way::Named,
            OBJECT | GROUP => Way::Opening,
            END_OBJECT | END_GROUP => Way::Closing,
            _ => Way::Plain,
        }
    }
}

// The bytes of a row, the byte of kind too. Here too the last row is tested apart, and with it sequences, sets and their ends, which have
// no body and the numbers 20 to 23. A row of any kind that is not named has a span.
pub fn row_length(kind: u8) -> usize
    ensures { (result ≡ length_of kind) × (1 ≤ result) × (result ≤ 16) }
{
    if kind == LAST {
        return 3;
    }
    if UNIT < kind {
        return 1;
    }
    match kind {
        END_OBJECT | END_GROUP => 1,
        INTEGER => 9,
        REAL => 11,
        MOMENT => 16,
        UNIT => 7,
        _ => 5,
    }
}

// The number of two bytes at a place, the high one first.
fn number_at(table: &[u8], at: usize) -> u16
    requires { at < usize.MAX }
    ensures { result ≡ number_at table.now at }
{
    u16::from(byte_at(table, at)) * 256 + u16::from(byte_at(table, at + 1))
}

// Whether the attribute whose row starts at a place is START_TIME.
pub fn is_start_time(label: &[u8], table: &[u8], at: usize) -> bool
    requires { at < length table.now }
    ensures { result ≡ has_name label.now start_time (span_at table.now at) }
{
    let a = usize::from(number_at(table, at + 1));
    let b = usize::from(number_at(table, at + 3));
    alike(part(label, a, b), b"START_TIME")
}

// The weekday of the date at a place: year, month and day.
fn weekday_at(table: &[u8], at: usize) -> usize
    requires { at + 3 ≤ usize.MAX }
    ensures { result ≡ weekday_at table.now at }
{
    weekday(
        number_at(table, at),
        byte_at(table, at + 2),
        byte_at(table, at + 3),
    )
}

// The counter of the value behind the attribute whose row starts at a place.
pub fn counter_behind(table: &[u8], at: usize) -> usize
    requires { at < length table.now }
    ensures { result ≡ counter_behind table.now at }
{
    if byte_at(table, at + 5) != MOMENT {
        return UNDATED;
    }
    match byte_at(table, at + 6) {
        DATE | DATE_AND_TIME => weekday_at(table, at + 7),
        _ => UNDATED,
    }
}
