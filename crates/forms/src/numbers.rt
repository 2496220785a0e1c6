// Numbers at a place of a word: one function for each part of the pattern.
ghost use Rattle.std.specs.Prelude.{◌≡◌, not, ◌||◌, eqb, ◌+◌, ◌≤◌, ◌<◌, length, get_or};
ghost use Rattle.rules.specs.Bytes.{digit, alnum};
ghost use Rattle.rules.specs.Modes.{base};
ghost use Rattle.rules.specs.Values.{number, a_decimal};
ghost use Rattle.rules.proofs.Machine.Patterns.{run};
ghost use Rattle.rules.proofs.Machine.Words.{zero_or_more, some_of, g_after, g_integer, g_scale, g_based};
ghost use Rattle.classes.specs.Places.{part};
ghost use Rattle.forms.specs.Laid.{Behind, SignTo, DigitsTo, RadixTo, BasedTo, MantissaTo, PowerTo};
ghost use Rattle.forms.specs.Forms.{FormAt, on, in_power, in_radix_at, g_pointed, g_plain};

use crate::ends::counted;
use crate::times::{days, minutes};
use crate::{ABSENT, Form, Span, Stamp, sign_length};
use classes::{Alnum, Digit, byte_at, run_end};

// The digits of a based integer and the # that ends it.
fn radix_digits(w: &[u8], radix: Span, neg: bool, at: usize) -> Option<Form>
    requires at_in_bounds { at ≤ length w.now }
    requires based_to { BasedTo w.now radix neg at }
    ensures { FormAt (run alnum some_of (in_radix_at w.now radix neg)) w.now at result }
{
    let e = run_end::<Alnum>(w, at);
    if e == at {
        return None;
    }
    if byte_at(w, e) != b'#' {
        return None;
    }
    if e + 1 != w.len() {
        return None;
    }
    Some(Form::Radix(radix, neg, Span { from: at, upto: e }))
}

// A based integer behind its radix and #.
fn based(w: &[u8], radix: Span, at: usize) -> Option<Form>
    requires at_in_bounds { at ≤ length w.now }
    requires behind { Behind (RadixTo w.now radix) at }
    ensures { FormAt (g_based (number (on w.now radix))) w.now at result }
{
    let b = byte_at(w, at);
    radix_digits(w, radix, b == b'-', at + sign_length(b))
}

// The digits of an exponent, which end the word.
fn power_digits(
    w: &[u8],
    neg: bool,
    whole: Span,
    decimals: Span,
    below: bool,
    at: usize,
) -> Option<Form>
    requires at_in_bounds { at ≤ length w.now }
    requires power_to { PowerTo w.now neg whole decimals below at }
    ensures { FormAt (run digit some_of (in_power neg (on w.now whole) (on w.now decimals) below)) w.now at result }
{
    let e = run_end::<Digit>(w, at);
    if e == at {
        return None;
    }
    if e != w.len() {
        return None;
    }
    Some(Form::Decimal(neg, whole, decimals, below, Span { from: at, upto: e }))
}

// A real behind the E of its exponent.
fn power(w: &[u8], neg: bool, whole: Span, decimals: Span, at: usize) -> Option<Form>
    requires at_in_bounds { at ≤ length w.now }
    requires behind { Behind (MantissaTo w.now neg whole decimals) at }
    ensures { FormAt (g_integer (a_decimal neg (on w.now whole) (on w.now decimals))) w.now at result }
{
    let b = byte_at(w, at);
    power_digits(w, neg, whole, decimals, b == b'-', at + sign_length(b))
}

// E or e.
fn is_mark(b: u8) -> bool
    ensures { result ≡ (eqb b 69 || eqb b 101) }
{
    matches!(b, b'E' | b'e')
}

// A real from the end of its decimals on.
fn scale(w: &[u8], neg: bool, whole: Span, decimals: Span, at: usize) -> Option<Form>
    requires at_in_bounds { at ≤ length w.now }
    requires mantissa_to { MantissaTo w.now neg whole decimals at }
    ensures { FormAt (g_scale (a_decimal neg (on w.now whole) (on w.now decimals))) w.now at result }
{
    if at == w.len() {
        return Some(Form::Decimal(neg, whole, decimals, false, ABSENT));
    }
    if !is_mark(w[at]) {
        return None;
    }
    power(w, neg, whole, decimals, at + 1)
}

// A real behind its period, which stands at the place; its first digits begin at `from`. Two periods need no test: the second is no exponent.
fn pointed(w: &[u8], neg: bool, from: usize, at: usize) -> Option<Form>
    requires from_le_at { (from ≤ at) × (at < length w.now) }
    requires sign_to { SignTo w.now 0 neg from × DigitsTo w.now from at × (get_or w.now at 0 ≡ 46) }
    ensures { FormAt (g_pointed neg (part w.now from at)) w.now (at + 1) result }
{
    let q = at + 1;
    let e = run_end::<Digit>(w, q);
    // The period alone.
    if e - from == 1 {
        return None;
    }
    let whole = Span { from, upto: at };
    let decimals = Span { from: q, upto: e };
    scale(w, neg, whole, decimals, e)
}

// What only digits with no sign begin: a based integer, a time, a date. The place is the end of those digits.
fn plain(w: &[u8], at: usize) -> Option<Form>
    requires at_in_bounds { at < length w.now }
    requires digits_to { DigitsTo w.now 0 at }
    ensures { FormAt (g_plain (part w.now 0 at)) w.now at result }
{
    let b = w[at];
    if b == b'#' {
        if at == 0 {
            return None;
        }
        return based(w, Span { from: 0, upto: at }, at + 1);
    }
    if b == b':' {
        let hour = counted(0, at, 2)?;
        return minutes(w, Stamp::Undated, hour, at + 1);
    }
    if b != b'-' {
        return None;
    }
    if at != 4 {
        return None;
    }
    days(w)
}

// A word that begins with no letter, from where its digits would begin: at 1 behind a sign, at 0 with none.
pub fn number_at(w: &[u8], neg: bool, from: usize) -> Option<Form>
    requires from_in_bounds { from ≤ length w.now }
    requires sign_to { SignTo w.now 0 neg from }
    ensures { FormAt (run digit zero_or_more (g_after base (not (eqb from 0)) neg)) w.now from result }
{
    let at = run_end::<Digit>(w, from);
    let whole = Span { from, upto: at };
    if at == w.len() {
        if at == from {
            return None;
        }
        return Some(Form::Whole(neg, whole));
    }
    let b = w[at];
    if b == b'.' {
        return pointed(w, neg, from, at);
    }
    if is_mark(b) {
        if at == from {
            return None;
        }
        return power(w, neg, whole, ABSENT, at + 1);
    }
    if from != 0 {
        return None;
    }
    plain(w, at)
}
