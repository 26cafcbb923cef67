// One call: the refusals that look at no row, and then the inner part, under the raised mask.
ghost use Rattle.std.specs.Prelude.{◌≡◌, ◌<◌, ◌≤◌, ◌&&◌, map, length, Some, None, MatchResult, ◌==◌, nat_lt};
ghost use Rattle.ledger.specs.Tests.{first};
ghost use Rattle.list_law.specs.Call.{fits_anchor, early_refusals};
ghost use Rattle.list_cells.specs.Views.{cell_of, anchor_of};
ghost use Rattle.list_window.specs.Rows.{row_of};
ghost use Rattle.list_window.specs.Turns.{what_of};
ghost use Rattle.list_window.specs.Lent.{lent_state};
ghost use Rattle.list.specs.Calls.{call_on, CalledOn};

use basis::answer::Answer;
use basis::bounded::Seat;
use basis::mask::{Guard, Mask};
use basis::refusal::Refusal;
use keys::key::Key;
use list_window::index::Index;
use list_window::sizes::sizes_fit;
use list_window::turn::Request;
use marks::scheme::Scheme;

// The sizes of what is lent are right: those that making takes, and as many cells as the anchor has it.
fn sizes_right<K: Key, S: Scheme>(index: &Index<'_, K, S>) -> bool
    ensures { result ≡ (fits_anchor (map cell_of index.now.cells.now) (anchor_of index.now.anchor.now) &&
        (length (map row_of index.now.rows.now) == 16)) }
{
    let count = index.cells.len();
    (count == index.anchor.count as usize) & sizes_fit(count, index.rows.len(), index.anchor.window)
}

fn level_fits(level: u8) -> bool
    ensures { result ≡ nat_lt level 7 }
{
    level < 7
}

// The seat of a call that is not refused whatever its row is.
#[inline(always)]
fn admit<K: Key, S: Scheme>(
    index: &Index<'_, K, S>,
    seat: u8,
    level: u8,
    request: Request<K>,
) -> Result<Seat, Refusal>
    ensures { MatchResult result
        (λ t. (t.number ≡ seat) × ((level < 7) × (1 ≤ index.now.anchor.now.window) ×
        (first (early_refusals (lent_state index.now) (call_on index.now (what_of request) seat level)) ≡ None)))
        (λ e.
        first (early_refusals (lent_state index.now) (call_on index.now (what_of request) seat level)) ≡ Some e) }
{
    let seat = Seat::try_from(u16::from(seat))?;
    if !sizes_right(index) {
        return Err(Refusal::WrongSizes);
    }
    if !level_fits(level) {
        return Err(Refusal::MaskRaised);
    }
    Ok(seat)
}

/// One call, whatever is asked. The mask is raised before anything is looked at, and the guard puts the level back on every way out.
#[inline(always)]
pub fn make_call<K: Key, S: Scheme>(
    index: &mut Index<'_, K, S>,
    mask: &mut Mask,
    seat: u8,
    request: Request<K>,
) -> Answer
    ensures called { CalledOn K.Key.below S.Scheme.table S.Scheme.strict S.Scheme.acts index.old (what_of request)
        seat mask.old.level result index.new }
    ensures level { mask.new.level ≡ mask.old.level }
{
    let level = mask.level;
    let guard = Guard::raise(mask);
    match admit(index, seat, level, request) {
        Err(refusal) => Answer::Refused(refusal),
        Ok(taken) => index.perform(&guard, taken, request),
    }
}
