// What a reading answers, and code, place and table length of each answer.
ghost use Rattle.std.specs.Prelude.{◌≡◌};
ghost use Rattle.statements.specs.Answer.{accepted_said, refusal_said};

use answers::Answer;
use classes::LONGEST_LABEL;

// The place past END, and the table's length.
#[derive(Clone, Copy)]
pub struct Accepted {
    pub place: usize,
    pub length: usize,
}

// Each refusal with its place; want of room with what is told of the label when there is room.
#[derive(Clone, Copy)]
pub enum Refusal {
    TooLong,
    ForeignByte(usize),
    LeftOpen(usize),
    NoForm(usize),
    PastLimit(usize),
    Misplaced(usize),
    OtherName(usize),
    TooDeep(usize),
    EndNotSetOff(usize),
    EndsEarly(usize),
    NoRoom(Accepted),
}

impl Answer for Accepted {
    ghost said = { accepted_said };

    fn code(&self) -> u8 {
        0
    }

    fn place(&self) -> usize {
        self.place
    }

    fn length(&self) -> usize {
        self.length
    }
}

impl Answer for Refusal {
    ghost said = { refusal_said };

    fn code(&self) -> u8 {
        match self {
            Refusal::TooLong => 1,
            Refusal::ForeignByte(_) => 2,
            Refusal::LeftOpen(_) => 3,
            Refusal::NoForm(_) => 4,
            Refusal::PastLimit(_) => 5,
            Refusal::Misplaced(_) => 6,
            Refusal::OtherName(_) => 7,
            Refusal::TooDeep(_) => 8,
            Refusal::EndNotSetOff(_) => 9,
            Refusal::EndsEarly(_) => 10,
            Refusal::NoRoom(_) => 11,
        }
    }

    fn place(&self) -> usize {
        match self {
            Refusal::TooLong => LONGEST_LABEL,
            Refusal::ForeignByte(p)
            | Refusal::LeftOpen(p)
            | Refusal::NoForm(p)
            | Refusal::PastLimit(p)
            | Refusal::Misplaced(p)
            | Refusal::OtherName(p)
            | Refusal::TooDeep(p)
            | Refusal::EndNotSetOff(p)
            | Refusal::EndsEarly(p) => *p,
            Refusal::NoRoom(a) => a.place,
        }
    }

    fn length(&self) -> usize {
        match self {
            Refusal::NoRoom(a) => a.length,
            _ => 0,
        }
    }
}
