// The form of a word: which bytes of it are what, as spans of the word, or that it has no form.
#![tactic(auto)]

mod ends; // ends.rt: digits, with bounds on how many they are
mod numbers; // numbers.rt: numbers
mod times; // times.rt: dates and times

ghost use Rattle.std.specs.Prelude.{◌≡◌, false, ◌≤◌, length, drop};
ghost use Rattle.rules.specs.Modes.{base};
ghost use Rattle.rules.proofs.Machine.Words.{more, g_word};
ghost use Rattle.forms.specs.Forms.{FormAt, Signed};

use classes::{byte_at, is_alnum, is_letter};
use numbers::number_at;

// The bytes of the word from a place up to another; 0 up to 0 for what is not written.
#[derive(Clone, Copy)]
pub struct Span {
    pub from: usize,
    pub upto: usize,
}

// What is not written.
const ABSENT: Span = Span { from: 0, upto: 0 };

// The day of the year; the month and the day. The year is the first four bytes.
#[derive(Clone, Copy)]
pub enum Date {
    InYear(Span),
    InMonth(Span, Span),
}

#[derive(Clone, Copy)]
pub struct Clock {
    pub hour: Span,
    pub minute: Span,
    pub second: Span,
    pub decimals: Span,
}

// What ends a time: nothing, Z, or how far it is from Greenwich: whether west of it, hours, minutes.
#[derive(Clone, Copy)]
pub enum Zone {
    NoZone,
    Utc,
    Offset(bool, Span, Span),
}

#[derive(Clone, Copy)]
pub enum Stamp {
    Undated,
    Dated(Date),
}

// What a word is. A bool says that there is a minus.
#[derive(Clone, Copy)]
pub enum Form {
    Name,
    // The digits.
    Whole(bool, Span),
    // The radix; the digits.
    Radix(Span, bool, Span),
    // The digits before the period and behind it; the digits of the exponent.
    Decimal(bool, Span, Span, bool, Span),
    Day(Date),
    Moment(Stamp, Clock, Zone),
}

// Whether the bytes behind a first letter make an identifier: letters, digits, and single underscores that do not end it.
fn is_more(w: &[u8], from: usize) -> bool
    requires { from ≤ length w.now }
    ensures { result ≡ more false (drop from w.now) }
{
    let mut under = false;
    for b in &w[from..] {
        if is_alnum(*b) {
            under = false;
            continue;
        }
        if *b != b'_' {
            return false;
        }
        if under {
            return false;
        }
        under = true;
    }
    !under
}

// How many bytes the sign is that this first byte may be.
fn sign_length(b: u8) -> usize
    ensures { Signed b result }
{
    match b {
        b'-' | b'+' => 1,
        _ => 0,
    }
}

// The form of any bytes as a word, in one pass over them. One call of `number_at`: the compiler then keeps the form in registers.
pub fn shape(w: &[u8]) -> Option<Form>
    ensures { FormAt (g_word base) w.now 0 result }
{
    let b = byte_at(w, 0);
    if is_letter(b) {
        if is_more(w, 1) {
            return Some(Form::Name);
        }
        return None;
    }
    number_at(w, b == b'-', sign_length(b))
}
