// What a call answers.
ghost use Rattle.std.specs.Prelude.{◌≡◌, Some, option_to_list};
ghost use Rattle.basis.specs.Answers.{answer, settled, spoken};

use crate::refusal::Refusal;
use std::fmt;

/// The answer of a call. A refusal is an answer too, and carries which one it is: a line prints it and the ledger gives it like the others, and a
/// `Result` has no `Display`. Calls that are only accepted or refused return a `Result`.
#[derive(Clone, Copy, PartialEq, Eq, Debug)]
pub enum Answer {
    No,
    Yes,
    Ok,
    Wait,
    Full,
    Refused(Refusal),
}

// The answer of a call that is only accepted or refused.
impl From<Result<(), Refusal>> for Answer {
    ghost from_gives = { λ told a. a ≡ settled told };

    fn from(told: Result<(), Refusal>) -> Answer {
        match told {
            Ok(()) => Answer::Ok,
            Err(refusal) => Answer::Refused(refusal),
        }
    }
}

impl Answer {
    /// The number of this case, 0 to 5.
    pub fn number(self) -> u8
        ensures { result ≡ (answer self).number }
    {
        match self {
            Answer::No => 0,
            Answer::Yes => 1,
            Answer::Ok => 2,
            Answer::Wait => 3,
            Answer::Full => 4,
            Answer::Refused(_) => 5,
        }
    }

    /// What this case carries: the number of a refusal, and else nothing.
    pub fn value(self) -> Option<u8>
        ensures { option_to_list result ≡ (answer self).values }
    {
        match self {
            Answer::Refused(refusal) => Some(u8::from(refusal)),
            _ => None,
        }
    }

    /// The word that a line prints for this answer.
    pub fn word(self) -> &'static str
        ensures { result.now ≡ (answer self).word }
    {
        match self {
            Answer::No => "no",
            Answer::Yes => "yes",
            Answer::Ok => "ok",
            Answer::Wait => "wait",
            Answer::Full => "full",
            Answer::Refused(_) => "refused",
        }
    }
}

// The word of an answer, and behind a refusal its number.
impl fmt::Display for Answer {
    ghost output = { λ a. Some (spoken a) };

    fn fmt<W: fmt::Write>(&self, f: &mut fmt::Formatter<W>) -> fmt::Result {
        let word = self.word();
        match *self {
            Answer::Refused(refusal) => {
                let number = u8::from(refusal);
                write!(f, "{word} {number}")
            }
            _ => f.write_str(word),
        }
    }
}
