// Numbers with a range: seats, places and bank bits.
ghost use Rattle.std.specs.Prelude.{◌≡◌, ◌<◌, ◌≤◌, Some, MatchResult, decimal};
ghost use Rattle.basis.specs.Refusals.{refusal};

use crate::refusal::Refusal;
use std::fmt;

/// A number below END. Each END makes a type of its own, so the build refuses a place where a seat is asked, and the other way round.
#[derive(Clone, Copy, PartialEq, Eq, Debug)]
pub struct Bounded<const END: u16> {
    number: u16,
    ghost ok: { number < END },
}

/// A task's number, 0 to 15.
pub type Seat = Bounded<16>;

/// A cell's number, 0 to 1,007.
pub type Place = Bounded<1008>;

/// Which of the four bits of a seat's number is looked at, 0 to 3.
pub type BankBit = Bounded<4>;

// The number with its range, or the refusal of a number out of it.
impl<const END: u16> TryFrom<u16> for Bounded<END> {
    type Error = Refusal;

    ghost try_from_gives = { λ n r. MatchResult r
        (λ (b : _). b.number ≡ n)
        (λ e. (END ≤ n) × ((refusal e).number ≡ 1)) };

    fn try_from(number: u16) -> Result<Bounded<END>, Refusal> {
        if number < END {
            Ok(Bounded { number })
        } else {
            Err(Refusal::OutOfRange)
        }
    }
}

impl<const END: u16> Bounded<END> {
    /// The plain number. A method and no `From`: `seat.number()` says what it is where `u16::from(seat)` says only of which type.
    pub fn number(self) -> u16
        ensures { result ≡ self.entry.number }
    {
        self.number
    }

    /// The number, to index by.
    pub fn index(self) -> usize
        ensures { result ≡ self.entry.number }
    {
        usize::from(self.number)
    }
}

impl<const END: u16> fmt::Display for Bounded<END> {
    ghost output = { λ b. Some (decimal b.number) };

    fn fmt<W: fmt::Write>(&self, f: &mut fmt::Formatter<W>) -> fmt::Result {
        let number = self.number;
        write!(f, "{number}")
    }
}
