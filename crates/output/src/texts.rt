// A text reassembled (12.5.3.1). Control bytes are passed over wherever the text is looked at, so they neither part a hyphen from its line end nor split a run; the
// end of a run is looked for once, at its first byte.
ghost use Rattle.std.specs.Prelude.{◌≡◌, not, ◌&&◌, ◌≤◌, ◌<◌, length};
ghost use Rattle.rules.specs.Bytes.{line_end, front};
ghost use Rattle.rules.specs.Elements.{is_blank};
ghost use Rattle.rules.specs.Meaning.{kept, keep, breaks, reassemble};
ghost use Rattle.output.specs.Puts.{Puts};
ghost use Rattle.output.specs.Joins.{maybe, Known, Turned};

use crate::bytes::put_byte;
use classes::{is_blank, is_line_end};

// What is known of the run of blanks that the next byte may stand in: nothing yet; that it has been dealt with; that it holds no line end.
#[derive(Clone, Copy)]
pub enum Run {
    Fresh,
    Dealt,
    Unbroken,
}

// A byte that is kept and is no blank.
fn is_shown(b: u8) -> bool
    ensures { result ≡ (kept b && not (is_blank b)) }
{
    (b > b' ') & (b != 127)
}

fn is_kept(b: u8) -> bool
    ensures { result ≡ kept b }
{
    is_shown(b) | is_blank(b)
}

// Whether the run of blanks at the front holds a line end.
fn run_breaks(w: &[u8]) -> bool
    ensures { result ≡ breaks (keep w.now) }
{
    for b in w {
        if is_line_end(*b) {
            return true;
        }
        if is_shown(*b) {
            return false;
        }
    }
    false
}

// Whether a line end stands next.
fn line_ends(w: &[u8]) -> bool
    ensures { result ≡ front line_end (keep w.now) }
{
    for b in w {
        if is_kept(*b) {
            return is_line_end(*b);
        }
    }
    false
}

// A byte's turn: what it leaves of the text, and what is known of a run behind it. The end of a run is looked for at the run's first byte, and what was found holds
// for the rest of it. Bytes that are shown come first: most bytes of texts are.
fn turn_of(w: &[u8], i: usize, run: Run) -> (Option<u8>, Run)
    requires { (i < length w.now) × Known w.now i run }
    ensures { Turned w.now i run result.0 result.1 }
{
    let b = w[i];
    if is_shown(b) {
        if b == b'-' && line_ends(&w[i + 1..]) {
            return (None, Run::Dealt);
        }
        return (Some(b), Run::Fresh);
    }
    if is_blank(b) {
        return match run {
            Run::Dealt => (None, Run::Dealt),
            Run::Unbroken => (Some(b), Run::Unbroken),
            Run::Fresh if run_breaks(&w[i..]) => (Some(b' '), Run::Dealt),
            Run::Fresh => (Some(b), Run::Unbroken),
        };
    }
    (None, run)
}

fn put_if(out: &mut [u8], b: Option<u8>) -> usize
    ensures { Puts (maybe b) out.old out.new result × (result ≤ 1) }
{
    match b {
        Some(b) => put_byte(out, b),
        None => 0,
    }
}

pub fn put_reassembled(out: &mut [u8], w: &[u8]) -> usize
    ensures { Puts (reassemble w.now) out.old out.new result × (result ≤ length w.now) }
{
    let mut n = 0;
    let mut run = Run::Fresh;
    for i in 0..w.len() {
        let (b, next) = turn_of(w, i, run);
        let k = n.min(out.len());
        n += put_if(&mut out[k..], b);
        run = next;
    }
    n
}
