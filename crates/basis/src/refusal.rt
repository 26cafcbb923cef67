// The numbers that a caller may get in place of an answer.
ghost use Rattle.std.specs.Prelude.{◌≡◌, Some};
ghost use Rattle.basis.specs.Refusals.{refusal};

use std::error::Error;
use std::fmt;

/// Why a call was refused. Each case is named by its meaning; its number is the one that a caller sees.
#[derive(Clone, Copy, PartialEq, Eq, Debug)]
pub enum Refusal {
    OutOfRange = 1,
    WrongSizes = 2,
    MaskRaised = 3,
    NotAway = 4,
    Away = 5,
    AlreadyRunning = 6,
    NotRunning = 7,
    BadLink = 8,
    ScheduleTooLong = 9,
    NoVersionByte = 10,
    BadRecord = 11,
}

// The number that stands for a refusal, 1 to 11.
impl From<Refusal> for u8 {
    ghost from_gives = { λ r n. n ≡ (refusal r).number };

    fn from(refusal: Refusal) -> u8 {
        refusal as u8
    }
}

impl Refusal {
    /// The refusal in a few words, for a person.
    pub fn word(self) -> &'static str
        ensures { result.now ≡ (refusal self).word }
    {
        match self {
            Refusal::OutOfRange => "number out of range",
            Refusal::WrongSizes => "wrong sizes",
            Refusal::MaskRaised => "mask already raised",
            Refusal::NotAway => "row not away",
            Refusal::Away => "row away",
            Refusal::AlreadyRunning => "row running",
            Refusal::NotRunning => "row idle",
            Refusal::BadLink => "bad link",
            Refusal::ScheduleTooLong => "schedule too long",
            Refusal::NoVersionByte => "no first byte 1",
            Refusal::BadRecord => "bad record",
        }
    }
}

impl fmt::Display for Refusal {
    ghost output = { λ r. Some (refusal r).word };

    fn fmt<W: fmt::Write>(&self, f: &mut fmt::Formatter<W>) -> fmt::Result {
        f.write_str(self.word())
    }
}

impl Error for Refusal {}
