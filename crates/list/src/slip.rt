// The five calls, by slip. A task that has a slip has a seat, and cannot end before it has given the slip back: a slip cannot be let go
// or copied, only join makes one, and only leave takes one.
ghost use Rattle.std.specs.Prelude.{◌≡◌, IfOk, IfErr};
ghost use Rattle.list_window.specs.Turns.{what_of};
ghost use Rattle.basis.specs.Answers.{settled};
ghost use Rattle.list.specs.Calls.{CalledOn};
ghost use Rattle.list.specs.Slips.{left, join_case, join_due, leave_case, leave_due};

use crate::calls;
use basis::answer::Answer;
use basis::kind::Kind;
use basis::mask::Mask;
use basis::refusal::Refusal;
use keys::key::Key;
use list_window::index::Index;
use list_window::turn::Request;
use marks::scheme::Scheme;

/// A seat that was joined and not yet left. No Drop and no Copy, so that leave is the only end of it.
pub struct Slip {
    seat: u8,
}

/// A leave that was refused: why, and the slip, which the task still has.
pub struct RefusedLeave {
    pub refusal: Refusal,
    pub slip: Slip,
}

impl Slip {
    /// The number of the slip's seat.
    pub fn seat(&self) -> u8
        ensures { result ≡ self.now.seat }
    {
        self.seat
    }

    /// Joins the seat, and gives its slip. Refused as `calls::join`, and then there is no slip.
    pub fn join<K: Key, S: Scheme>(
        index: &mut Index<'_, K, S>,
        mask: &mut Mask,
        seat: u8,
    ) -> Result<Slip, Refusal>
        ensures called { CalledOn K.Key.below S.Scheme.table S.Scheme.strict S.Scheme.acts index.old
            (what_of Request.Join) seat mask.old.level (settled result) index.new }
        ensures level { mask.new.level ≡ mask.old.level }
        ensures case { join_case result ≡ join_due seat (settled result) }
        ensures seat { IfOk result (λ slip. slip.seat ≡ seat) }
    {
        calls::join(index, mask, seat)?;
        Ok(Slip { seat })
    }

    /// The seat of the slip begins an operation on a target. Refused as `calls::begin`.
    pub fn begin<K: Key, S: Scheme>(
        &self,
        index: &mut Index<'_, K, S>,
        mask: &mut Mask,
        kind: Kind,
        target: K,
    ) -> Result<(), Refusal>
        ensures called { CalledOn K.Key.below S.Scheme.table S.Scheme.strict S.Scheme.acts index.old
            (what_of (Request.Begin kind target)) self.now.seat mask.old.level (settled result) index.new }
        ensures level { mask.new.level ≡ mask.old.level }
    {
        calls::begin(index, mask, self.seat, kind, target)
    }

    /// The seat of the slip runs one window. Refused as `calls::step`.
    pub fn step<K: Key, S: Scheme>(&self, index: &mut Index<'_, K, S>, mask: &mut Mask) -> Answer
        ensures called { CalledOn K.Key.below S.Scheme.table S.Scheme.strict S.Scheme.acts index.old
            (what_of Request.Step) self.now.seat mask.old.level result index.new }
        ensures level { mask.new.level ≡ mask.old.level }
    {
        calls::step(index, mask, self.seat)
    }

    /// The seat of the slip drops its operation, and its mark is released. Refused as `calls::abandon`.
    pub fn abandon<K: Key, S: Scheme>(
        &self,
        index: &mut Index<'_, K, S>,
        mask: &mut Mask,
    ) -> Result<(), Refusal>
        ensures called { CalledOn K.Key.below S.Scheme.table S.Scheme.strict S.Scheme.acts index.old
            (what_of Request.Abandon) self.now.seat mask.old.level (settled result) index.new }
        ensures level { mask.new.level ≡ mask.old.level }
    {
        calls::abandon(index, mask, self.seat)
    }

    /// Leaves the seat and takes the slip, or gives it back with the refusal, which is that of `calls::leave`.
    pub fn leave<K: Key, S: Scheme>(
        self,
        index: &mut Index<'_, K, S>,
        mask: &mut Mask,
    ) -> Result<(), RefusedLeave>
        ensures called { CalledOn K.Key.below S.Scheme.table S.Scheme.strict S.Scheme.acts index.old
            (what_of Request.Leave) self.seat mask.old.level (left result) index.new }
        ensures level { mask.new.level ≡ mask.old.level }
        ensures case { leave_case result ≡ leave_due self.seat (left result) }
        ensures slip { IfErr result (λ kept. kept.slip ≡ self) }
    {
        let Slip { seat } = self;
        calls::leave(index, mask, seat).map_err(|refusal| RefusedLeave {
            refusal,
            slip: Slip { seat },
        })
    }
}
