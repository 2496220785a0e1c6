// The answers of the text reader and of the lookup, and code, place and length of each.
ghost use Rattle.std.specs.Prelude.{◌≡◌};
ghost use Rattle.queries.specs.Answers.{given_said, no_text_said, at_said, not_found_said};
ghost use Rattle.queries.specs.declared.outcome.NoText.TheVariants as texts;
ghost use Rattle.queries.specs.declared.outcome.NotFound.TheVariants as finds;

use answers::Answer;
use classes::LONGEST_LABEL;
use table::Improper;

// The length of a text that was given.
#[derive(Clone, Copy)]
pub struct Given {
    pub length: usize,
}

// The place where the table stops being proper; the text's length, for which the room is too short.
#[derive(Clone, Copy)]
pub enum NoText {
    TooLong,
    Improper(usize),
    NoRow,
    NoRoom(usize),
}

impl From<Improper> for NoText {
    ghost from_gives = { λ e r. r ≡ texts.Improper e.0 };

    fn from(e: Improper) -> NoText {
        NoText::Improper(e.0)
    }
}

// The offset of the attribute's row.
#[derive(Clone, Copy)]
pub struct At {
    pub row: usize,
}

// The place where the table stops being proper.
#[derive(Clone, Copy)]
pub enum NotFound {
    TooLong,
    Improper(usize),
    NoName,
    NoLine,
}

impl From<Improper> for NotFound {
    ghost from_gives = { λ e r. r ≡ finds.Improper e.0 };

    fn from(e: Improper) -> NotFound {
        NotFound::Improper(e.0)
    }
}

impl Answer for Given {
    ghost said = { given_said };

    fn code(&self) -> u8 {
        0
    }

    fn place(&self) -> usize {
        0
    }

    fn length(&self) -> usize {
        self.length
    }
}

impl Answer for NoText {
    ghost said = { no_text_said };

    fn code(&self) -> u8 {
        match self {
            NoText::TooLong => 1,
            NoText::Improper(_) => 12,
            NoText::NoRow => 15,
            NoText::NoRoom(_) => 11,
        }
    }

    fn place(&self) -> usize {
        match self {
            NoText::TooLong => LONGEST_LABEL,
            NoText::Improper(p) => *p,
            _ => 0,
        }
    }

    fn length(&self) -> usize {
        match self {
            NoText::NoRoom(n) => *n,
            _ => 0,
        }
    }
}

impl Answer for At {
    ghost said = { at_said };

    fn code(&self) -> u8 {
        0
    }

    fn place(&self) -> usize {
        0
    }

    fn length(&self) -> usize {
        self.row
    }
}

impl Answer for NotFound {
    ghost said = { not_found_said };

    fn code(&self) -> u8 {
        match self {
            NotFound::TooLong => 1,
            NotFound::Improper(_) => 12,
            NotFound::NoName => 14,
            NotFound::NoLine => 15,
        }
    }

    fn place(&self) -> usize {
        match self {
            NotFound::TooLong => LONGEST_LABEL,
            NotFound::Improper(p) => *p,
            _ => 0,
        }
    }

    fn length(&self) -> usize {
        0
    }
}
