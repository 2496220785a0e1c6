// What a call answers, as the paper's three numbers: code, place and length. Each answer says which they are, and a Result says what the answer in it says.
#![tactic(auto)]

ghost use Rattle.std.specs.Prelude.{◌≡◌};
ghost use Rattle.rules.specs.Reading.{Said};
ghost use Rattle.answers.specs.Answers.{of_either};

// By reference, so that an answer need not be one that may be dropped.
pub trait Answer {
    ghost said: { Self → Said };

    fn code(&self) -> u8
        ensures { result ≡ (said self.now).code };

    fn place(&self) -> usize
        ensures { result ≡ (said self.now).place };

    fn length(&self) -> usize
        ensures { result ≡ (said self.now).size };
}

impl<A: Answer, E: Answer> Answer for Result<A, E> {
    ghost said = { of_either A.said E.said };

    fn code(&self) -> u8 {
        match self {
            Ok(a) => a.code(),
            Err(e) => e.code(),
        }
    }

    fn place(&self) -> usize {
        match self {
            Ok(a) => a.place(),
            Err(e) => e.place(),
        }
    }

    fn length(&self) -> usize {
        match self {
            Ok(a) => a.length(),
            Err(e) => e.length(),
        }
    }
}
