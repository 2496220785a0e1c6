// What stands between elements: blanks and comments.
ghost use Rattle.std.specs.Prelude.{◌≤◌, length};
ghost use Rattle.elements.specs.Places.{CommentOpens, Remarked, Skipped};

use crate::Broken;
use crate::ends::{break_code, comment_end};
use classes::{InLine, byte_at, is_blank, run_end};

// The end of a comment, with the rest of its line.
fn remark(label: &[u8], at: usize) -> Result<usize, Broken>
    requires { CommentOpens label.now at }
    ensures { Remarked label.now at result }
{
    let e = comment_end(label, at + 2);
    if byte_at(label, e) != b'*' || byte_at(label, e + 1) != b'/' {
        return Err(Broken(break_code(label, e), at));
    }
    Ok(run_end::<InLine>(label, e + 2))
}

// Where the blanks and comments from a place on end.
pub fn skip_gap(label: &[u8], from: usize) -> Result<usize, Broken>
    requires { from ≤ length label.now }
    ensures { Skipped label.now from result }
{
    let mut i = from;
    while i < label.len() {
        let b = label[i];
        if is_blank(b) {
            i += 1;
        } else if b == b'/' && byte_at(label, i + 1) == b'*' {
            i = remark(label, i)?;
        } else {
            return Ok(i);
        }
    }
    Ok(i)
}
