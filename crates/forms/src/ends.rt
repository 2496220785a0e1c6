// Digits, with bounds on how many they are.
ghost use Rattle.std.specs.Prelude.{◌≤◌, length};
ghost use Rattle.forms.specs.Laid.{Between, DigitsAt};

use crate::Span;
use classes::{Digit, run_end};

// The bytes between two places, if they are 1 at least and `most` at most.
pub fn counted(from: usize, upto: usize, most: usize) -> Option<Span>
    requires { from ≤ upto }
    ensures { Between from upto most result }
{
    if (1..=most).contains(&(upto - from)) {
        Some(Span { from, upto })
    } else {
        None
    }
}

// The digits from a place on, if they are 1 at least and `most` at most.
pub fn digits(w: &[u8], at: usize, most: usize) -> Option<Span>
    requires { at ≤ length w.now }
    ensures { DigitsAt w.now at most result }
{
    counted(at, run_end::<Digit>(w, at), most)
}
