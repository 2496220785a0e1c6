// The span of a row: inside the label, and its bytes a name, a text or a symbol.
ghost use Rattle.std.specs.Prelude.{◌≡◌, ◌≤◌, length};
ghost use Rattle.rules.specs.Written.{is_name};
ghost use Rattle.rules.specs.Reading.{longest};
ghost use Rattle.rules.proofs.Machine.Checks.{is_text, is_symbol, held_test, span_test};
ghost use Rattle.classes.specs.Places.{as_span};
ghost use Rattle.rows.specs.Rows.{row_of};

use classes::{in_symbol, in_text};
use rows::Row;
use words::is_name;

const LONGEST_SYMBOL: usize = 255;

fn text_body(w: &[u8]) -> bool
    ensures { result ≡ is_text w.now }
{
    w.iter().all(|b| in_text(*b))
}

fn symbol_body(w: &[u8]) -> bool
    ensures { result ≡ is_symbol w.now }
{
    let n = w.len();
    let all = w.iter().all(|b| in_symbol(*b));
    all & ((n >= 1) & (n <= LONGEST_SYMBOL))
}

fn name_held(label: &[u8], a: usize, b: usize) -> bool
    requires { length label.now ≤ longest }
    ensures { result ≡ held_test is_name label.now (as_span a b) }
{
    label.get(a..b).is_some_and(|w| is_name(w))
}

fn text_held(label: &[u8], a: usize, b: usize) -> bool
    ensures { result ≡ held_test is_text label.now (as_span a b) }
{
    label.get(a..b).is_some_and(|w| text_body(w))
}

fn symbol_held(label: &[u8], a: usize, b: usize) -> bool
    ensures { result ≡ held_test is_symbol label.now (as_span a b) }
{
    label.get(a..b).is_some_and(|w| symbol_body(w))
}

pub fn good_span(label: &[u8], row: Row) -> bool
    requires { length label.now ≤ longest }
    ensures { result ≡ span_test label.now (row_of row) }
{
    match row {
        Row::Attribute(a, b) => name_held(label, a, b),
        Row::Pointer(a, b) => name_held(label, a, b),
        Row::Open(_, a, b) => name_held(label, a, b),
        Row::Text(a, b) => text_held(label, a, b),
        Row::Symbol(a, b) => symbol_held(label, a, b),
        Row::Unit(_, a, b, _, _) => name_held(label, a, b),
        Row::Last(n) => n <= label.len(),
        _ => true,
    }
}
