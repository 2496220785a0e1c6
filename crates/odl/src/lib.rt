// The C face of the library: each function thin over a proved one, under the name that include/odl.h declares. Code, place and length
// are set on every call, and the contract says of them and of the lent room what the rules say.
#![tactic(auto)]

ghost use Rattle.std.specs.Prelude.{◌≡◌};
ghost use Rattle.rules.specs.Modes.{base};
ghost use Rattle.rules.specs.Reading.{Answered};
ghost use Rattle.rules.specs.Writing.{Writes};
ghost use Rattle.rules.specs.Asked.{says, Texted, Sought, Viewed};
ghost use Rattle.rules.specs.Book as rule;
ghost use Rattle.rules.specs.Book.{Takes};
ghost use Rattle.classes.specs.Places.{as_span};

use answers::Answer;
use book::{Book, take};
use queries::{find, name_span, text};
use statements::read;
use writer::write;

// An answer's place and length are set, and its code is handed back.
fn told<A: Answer>(answer: &A, place: &mut usize, length: &mut usize) -> u8
    ensures { says result place.new length.new ≡ A.said answer.now }
{
    *place = answer.place();
    *length = answer.length();
    answer.code()
}

#[unsafe(no_mangle)]
pub extern "C" fn odl_read(
    label: &[u8],
    table: &mut [u8],
    place: &mut usize,
    length: &mut usize,
) -> u8
    ensures { Answered base label.now table.old (says result place.new length.new) table.new }
{
    told(&read(label, table), place, length)
}

#[unsafe(no_mangle)]
pub extern "C" fn odl_write(
    label: &[u8],
    table: &[u8],
    out: &mut [u8],
    place: &mut usize,
    length: &mut usize,
) -> u8
    ensures { Writes label.now table.now out.old (says result place.new length.new) out.new }
{
    told(&write(label, table, out), place, length)
}

#[unsafe(no_mangle)]
pub extern "C" fn odl_text(
    label: &[u8],
    table: &[u8],
    row: usize,
    out: &mut [u8],
    place: &mut usize,
    length: &mut usize,
) -> u8
    ensures { Texted label.now table.now row out.old (says result place.new length.new) out.new }
{
    told(&text(label, table, row, out), place, length)
}

#[unsafe(no_mangle)]
pub extern "C" fn odl_find(
    label: &[u8],
    table: &[u8],
    name: &[u8],
    row: usize,
    place: &mut usize,
    at: &mut usize,
) -> u8
    ensures { Sought label.now table.now name.now row (says result place.new at.new) }
{
    told(&find(label, table, name, row), place, at)
}

#[unsafe(no_mangle)]
pub extern "C" fn odl_name(
    label: &[u8],
    table: &[u8],
    row: usize,
    start: &mut usize,
    end: &mut usize,
)
    ensures { Viewed label.now table.now row (as_span start.new end.new) }
{
    let s = name_span(label, table, row);
    *start = s.start;
    *end = s.end;
}

#[unsafe(no_mangle)]
pub extern "C" fn odl_take(
    book: &mut [u32; 8],
    label: &[u8],
    table: &mut [u8],
    place: &mut usize,
    length: &mut usize,
) -> u8
    ensures { Takes (rule.book book.old) label.now table.old (says result place.new length.new) (rule.book book.new) table.new }
{
    let t = take(Book { counts: *book }, label, table);
    *book = t.book.counts;
    told(&t.answer, place, length)
}
