// The inner part of a call: all that changes a cell, a row, the anchor or a mark. It works only at mask level 7.
ghost use Rattle.std.specs.Prelude.{◌≡◌, ◌≤◌, map};
ghost use Rattle.list_law.specs.Call.{row_at, turn, turn_effect};
ghost use Rattle.list_window.specs.Rows.{row_of, doing_of};
ghost use Rattle.list_window.specs.Turns.{what_of, turn_of};
ghost use Rattle.list_window.specs.Lent.{window_memory, AppliedTo};

use crate::index::Index;
use crate::row::Doing;
use crate::seats::{put_row, row_at};
use crate::turn::{Request, Turn, turn_at};
use basis::answer::Answer;
use basis::bounded::Seat;
use basis::mask::Guard;
use keys::key::Key;
use marks::scheme::Scheme;

impl<K: Key, S: Scheme> Index<'_, K, S> {
    // The row becomes another one, with or without a release of the seat's mark.
    fn change_row(&mut self, seat: Seat, doing: Doing<K>, releases: bool) -> Answer
        ensures { AppliedTo S.Scheme.table S.Scheme.strict S.Scheme.acts seat.number
            (turn_effect K.Key.below (window_memory self.old) seat.number self.old.anchor.now.window
            (S.Scheme.table self.old.scheme.now seat.number) (turn_of seat.number (Turn.Becomes doing releases)))
            self.old result self.new }
    {
        put_row(self.rows, seat, doing);
        if releases {
            self.scheme.release(seat);
        }
        Answer::Ok
    }

    // What a seat is about.
    fn doing(&self, seat: Seat) -> Doing<K>
        ensures { doing_of result ≡ row_at (map row_of self.now.rows.now) seat.number }
    {
        row_at(self.rows, seat)
    }

    /// What a request of a seat does, by its row.
    #[inline(always)]
    pub fn perform(&mut self, guard: &Guard, seat: Seat, request: Request<K>) -> Answer
        requires raised { guard.now.mask.now.level ≡ 7 }
        requires wide { 1 ≤ self.old.anchor.now.window }
        ensures { AppliedTo S.Scheme.table S.Scheme.strict S.Scheme.acts seat.number
            (turn_effect K.Key.below (window_memory self.old) seat.number self.old.anchor.now.window
            (S.Scheme.table self.old.scheme.now seat.number)
            (turn seat.number (row_at (map row_of self.old.rows.now) seat.number) (what_of request)))
            self.old result self.new }
    {
        match turn_at(seat, self.doing(seat), request) {
            Err(refusal) => Answer::Refused(refusal),
            Ok(Turn::Becomes { doing, releases }) => self.change_row(seat, doing, releases),
            Ok(Turn::Runs { kind, target }) => self.run_window(seat, kind, target),
        }
    }
}
