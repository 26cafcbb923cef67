// A line that answers a record.
ghost use Rattle.std.specs.Prelude.{Some};
ghost use Rattle.schedule.specs.Lines.{line_text};

use basis::answer::Answer;
use std::fmt;

/// The number of a record, 0 for what comes before the first, and what it is answered. A schedule has no number above 14,999: one byte, a setup of
/// seven bytes, and four at least for each record after it.
#[derive(Clone, Copy, PartialEq, Eq, Debug)]
pub struct Line {
    pub number: u16,
    pub answer: Answer,
}

// The number in decimal, a space, the answer, and a line feed.
impl fmt::Display for Line {
    ghost output = { λ l. Some (line_text l) };

    fn fmt<W: fmt::Write>(&self, f: &mut fmt::Formatter<W>) -> fmt::Result {
        let number = self.number;
        let answer = self.answer;
        write!(f, "{number} {answer}\n")
    }
}
