// A call that was lent other cells than the index's own, and what its contract says of the run.
ghost use Rattle.std.specs.Prelude.{◌≡◌, IfOk};
ghost use Rattle.basis.specs.Answers.{settled};
ghost use Rattle.basis.specs.declared.answer.Answer.{Answer};
ghost use Rattle.ledger.specs.Ledger as ledger;
ghost use Rattle.list_window.specs.Lent.{lent_state};
ghost use Rattle.list.specs.Calls.{call_on, CalledOn};
ghost use Rattle.list_tests.specs.OtherCells.{GoesOnBeside};

use basis::kind::Kind;
use basis::mask::Mask;
use basis::refusal::Refusal;
use keys::key::Key;
use list::calls::begin;
use list_window::index::Index;
use marks::scheme::Scheme;

// A begin that is accepted on other cells goes on with the run of the index.
pub fn begin_on_other_cells<K: Key, S: Scheme>(
    index: &mut Index<'_, K, S>,
    mask: &mut Mask,
    seat: u8,
    kind: Kind,
    target: K,
) -> Result<(), Refusal>
    ensures runs { IfOk result (λ _. GoesOnBeside K.Key.below S.Scheme.table S.Scheme.strict S.Scheme.acts
        (lent_state index.old) (call_on index.old (ledger.begin kind target) seat mask.old.level) Answer.Ok
        (lent_state index.new)) }
    ensures called { CalledOn K.Key.below S.Scheme.table S.Scheme.strict S.Scheme.acts index.old
        (ledger.begin kind target) seat mask.old.level (settled result) index.new }
    ensures level { mask.new.level ≡ mask.old.level }
{
    begin(index, mask, seat, kind, target)
}
