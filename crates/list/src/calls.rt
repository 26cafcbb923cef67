// The five calls, by plain seat number.
ghost use Rattle.std.specs.Prelude.{◌≡◌, false};
ghost use Rattle.list_window.specs.Turns.{what_of};
ghost use Rattle.basis.specs.Answers.{settled};
ghost use Rattle.list.specs.Calls.{is_step, CalledOn};

use crate::call::make_call;
use basis::answer::Answer;
use basis::kind::Kind;
use basis::mask::Mask;
use basis::refusal::Refusal;
use keys::key::Key;
use list_window::index::Index;
use list_window::turn::Request;
use marks::scheme::Scheme;

// Any call but a step, which is accepted or refused.
fn settle<K: Key, S: Scheme>(
    index: &mut Index<'_, K, S>,
    mask: &mut Mask,
    seat: u8,
    request: Request<K>,
) -> Result<(), Refusal>
    requires { is_step (what_of request) ≡ false }
    ensures called { CalledOn K.Key.below S.Scheme.table S.Scheme.strict S.Scheme.acts index.old (what_of request)
        seat mask.old.level (settled result) index.new }
    ensures level { mask.new.level ≡ mask.old.level }
{
    match make_call(index, mask, seat, request) {
        Answer::Ok => Ok(()),
        Answer::Refused(refusal) => Err(refusal),
        _ => unreachable(),
    }
}

/// A seat, 0 to 15, that is away becomes idle. Refused, with nothing altered: 1 for another seat, 2 where sizes do not fit, 3 at a
/// mask level of 7 or more, 4 where the row is not away.
pub fn join<K: Key, S: Scheme>(
    index: &mut Index<'_, K, S>,
    mask: &mut Mask,
    seat: u8,
) -> Result<(), Refusal>
    ensures called { CalledOn K.Key.below S.Scheme.table S.Scheme.strict S.Scheme.acts index.old
        (what_of Request.Join) seat mask.old.level (settled result) index.new }
    ensures level { mask.new.level ≡ mask.old.level }
{
    settle(index, mask, seat, Request::Join)
}

/// A seat that is idle or running becomes away, and its mark is released. Refused, with nothing altered: 1 to 3 as `join`, 5 where
/// the row is away.
pub fn leave<K: Key, S: Scheme>(
    index: &mut Index<'_, K, S>,
    mask: &mut Mask,
    seat: u8,
) -> Result<(), Refusal>
    ensures called { CalledOn K.Key.below S.Scheme.table S.Scheme.strict S.Scheme.acts index.old
        (what_of Request.Leave) seat mask.old.level (settled result) index.new }
    ensures level { mask.new.level ≡ mask.old.level }
{
    settle(index, mask, seat, Request::Leave)
}

/// An idle seat begins an operation on a target; the first `step` starts at the head. Refused, with nothing altered: 1 to 3 as `join`,
/// 5 where the row is away, 6 where it is running.
pub fn begin<K: Key, S: Scheme>(
    index: &mut Index<'_, K, S>,
    mask: &mut Mask,
    seat: u8,
    kind: Kind,
    target: K,
) -> Result<(), Refusal>
    ensures called { CalledOn K.Key.below S.Scheme.table S.Scheme.strict S.Scheme.acts index.old
        (what_of (Request.Begin kind target)) seat mask.old.level (settled result) index.new }
    ensures level { mask.new.level ≡ mask.old.level }
{
    settle(index, mask, seat, Request::Begin { kind, target })
}

/// A running seat runs one window: wait where the window is used up, else the operation's yes, no or full, and the seat is idle.
/// Refused, with nothing altered: 1 to 3 as `join`, 5 where the row is away, 7 where it is idle, and 8 where the window would use a
/// mark or a link to no cell, or to a cell of the wrong flag.
pub fn step<K: Key, S: Scheme>(index: &mut Index<'_, K, S>, mask: &mut Mask, seat: u8) -> Answer
    ensures called { CalledOn K.Key.below S.Scheme.table S.Scheme.strict S.Scheme.acts index.old
        (what_of Request.Step) seat mask.old.level result index.new }
    ensures level { mask.new.level ≡ mask.old.level }
{
    make_call(index, mask, seat, Request::Step)
}

/// A running seat drops its operation and is idle, and its mark is released. Refused, with nothing altered: 1 to 3 as `join`, 5 where
/// the row is away, 7 where it is idle.
pub fn abandon<K: Key, S: Scheme>(
    index: &mut Index<'_, K, S>,
    mask: &mut Mask,
    seat: u8,
) -> Result<(), Refusal>
    ensures called { CalledOn K.Key.below S.Scheme.table S.Scheme.strict S.Scheme.acts index.old
        (what_of Request.Abandon) seat mask.old.level (settled result) index.new }
    ensures level { mask.new.level ≡ mask.old.level }
{
    settle(index, mask, seat, Request::Abandon)
}
