// Why a label is not taken, and code, place and table length of each answer.
ghost use Rattle.book.specs.Answers.{untaken_said};

use answers::Answer;
use statements::Refusal;

// The reader's own refusal, and a full book.
#[derive(Clone, Copy)]
pub enum Untaken {
    Unread(Refusal),
    BookFull,
}

impl Answer for Untaken {
    ghost said = { untaken_said };

    fn code(&self) -> u8 {
        match self {
            Untaken::Unread(r) => r.code(),
            Untaken::BookFull => 16,
        }
    }

    fn place(&self) -> usize {
        match self {
            Untaken::Unread(r) => r.place(),
            Untaken::BookFull => 0,
        }
    }

    fn length(&self) -> usize {
        match self {
            Untaken::Unread(r) => r.length(),
            Untaken::BookFull => 0,
        }
    }
}
