// Where the bytes of a comment end, and the fault of what ends too early.
ghost use Rattle.std.specs.Prelude.{◌≡◌, ◌≤◌, ◌<◌, length, drop};
ghost use Rattle.rules.specs.Bytes.{line_end};
ghost use Rattle.rules.specs.Elements.{in_comment, Breaks};
ghost use Rattle.classes.specs.Places.{EndsAt};
ghost use Rattle.elements.specs.Faults.{code_of};

use crate::Fault;
use classes::{in_comment, is_line_end};

// Where the bytes of a comment from a place on end. A star may be the last of them or end it: the byte behind it tells.
#[inline(never)]
pub fn comment_end(label: &[u8], at: usize) -> usize
    requires { at ≤ length label.now }
    ensures { EndsAt in_comment label.now at result }
{
    let mut star = false;
    for i in at..label.len() {
        let b = label[i];
        if star & (b == b'/') {
            return i - 1;
        }
        if !in_comment(b, 0) {
            return i;
        }
        star = b == b'*';
    }
    label.len()
}

// The fault of a break in a symbol or a comment.
pub fn break_code(label: &[u8], at: usize) -> Fault
    requires { at ≤ length label.now }
    ensures { Breaks line_end (drop at label.now) (code_of result) }
{
    if label.get(at).is_none_or(|b| is_line_end(*b)) {
        Fault::LeftOpen
    } else {
        Fault::ForeignByte
    }
}
