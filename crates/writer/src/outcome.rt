// What a writing answers, and code, place and written length of each answer.
ghost use Rattle.std.specs.Prelude.{◌≡◌};
ghost use Rattle.writer.specs.Answer.{written_said, refusal_said};
ghost use Rattle.writer.specs.declared.outcome.Refusal.TheVariants as refusals;

use answers::Answer;
use classes::LONGEST_LABEL;
use table::Improper;

// The written label's length.
#[derive(Clone, Copy)]
pub struct Written {
    pub length: usize,
}

// The place where the table stops being proper; the length that the room lacks.
#[derive(Clone, Copy)]
pub enum Refusal {
    TooLong,
    Improper(usize),
    TooLongWritten,
    NoRoom(usize),
}

impl From<Improper> for Refusal {
    ghost from_gives = { λ e r. r ≡ refusals.Improper e.0 };

    fn from(e: Improper) -> Refusal {
        Refusal::Improper(e.0)
    }
}

impl Answer for Written {
    ghost said = { written_said };

    fn code(&self) -> u8 {
        0
    }

    fn place(&self) -> usize {
        self.length
    }

    fn length(&self) -> usize {
        self.length
    }
}

impl Answer for Refusal {
    ghost said = { refusal_said };

    fn code(&self) -> u8 {
        match self {
            Refusal::TooLong => 1,
            Refusal::Improper(_) => 12,
            Refusal::TooLongWritten => 13,
            Refusal::NoRoom(_) => 11,
        }
    }

    fn place(&self) -> usize {
        match self {
            Refusal::TooLong | Refusal::TooLongWritten => LONGEST_LABEL,
            Refusal::Improper(p) | Refusal::NoRoom(p) => *p,
        }
    }

    fn length(&self) -> usize {
        match self {
            Refusal::NoRoom(n) => *n,
            _ => 0,
        }
    }
}
