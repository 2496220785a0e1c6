// A label written anew in its canonical form, or why not. What the program prints is this answer.
ghost use Rattle.rules.specs.Asked.{says};
ghost use Rattle.relabel.specs.Relabels.{Relabels};

use answers::Answer;
use classes::{LONGEST_LABEL, part};
use statements::read;
use writer::write;

// Code, place and length: those of the refused reading, or of the writing. Not a Result with both refusals: one of the reader and one of the
// writer can say the same numbers, and the rules, which speak of these, would not decide between them.
#[derive(Clone, Copy)]
pub struct Told {
    pub code: u8,
    pub place: usize,
    pub length: usize,
}

// The room for the table is as long as that for a label.
pub fn relabelled(label: &[u8], out: &mut [u8]) -> Told
    ensures { Relabels label.now out.old (says result.code result.place result.length) out.new }
{
    let mut table = [0u8; LONGEST_LABEL];
    match read(label, &mut table) {
        Err(r) => Told {
            code: r.code(),
            place: r.place(),
            length: r.length(),
        },
        Ok(a) => {
            let w = write(label, part(&table, 0, a.length), out);
            Told {
                code: w.code(),
                place: w.place(),
                length: w.length(),
            }
        }
    }
}
