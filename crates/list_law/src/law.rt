// The law across runs, as contracts: of the index over every kind of key and every scheme of marks.
ghost use Rattle.std.specs.Prelude.{suc, ◌+◌, ◌*◌, ◌%◌, Bool};
ghost use Rattle.marks.specs.Meaning.{Table};
ghost use Rattle.basis.specs.declared.refusal.Refusal.{Refusal};
ghost use Rattle.list_law.specs.Call.{reach};
ghost use Rattle.list_law.specs.Law.{Law, Windows, most_waits};
ghost use Rattle.list_law.specs.Apart.{StopApart};
ghost use Rattle.list_law.specs.Elsewhere.{OthersServe};
ghost use Rattle.list_law.specs.Existence.{unconstrained, RunsAreThere};

use crate::proved;
use keys::key::Key;
use marks::scheme::Scheme;

/// Every run is lawful: each answer is the ledger's, each wait is where the rule has it, the cells are sound after every
/// call. On a strict scheme an operation of a seat whose windows from the head are f wide has answered with its first accepted step if f is
/// larger than n, and else once it has had (k + 1) × (1 + ⌊(n - f) / w⌋) + 1 of them.
pub fn every_run_is_lawful<K: Key, S: Scheme>() -> u8
    ensures { Law K.Key.below S.Scheme.table S.Scheme.strict
        S.Scheme.acts (λ n w t kind k. suc k * most_waits n w t + 1) }
{
    proved::every_run_is_lawful::<K, S>()
}

/// The same over plain marks, of which nothing is known but what the orders mean: whatever a scheme may do, this may do.
pub fn every_run_over_plain_marks_is_lawful<K: Key>() -> u8
    ensures { (keeps : Bool) →
        Law K.Key.below (λ (m : Table). m) keeps unconstrained (λ n w t kind k. suc k * most_waits n w t + 1) }
{
    proved::every_run_over_plain_marks_is_lawful::<K>()
}

/// A window waits exactly where it meets as many cells below its target as it is wide, and its mark is then the last of these. It is w wide
/// from a mark, and 1 + t mod w wide from the head.
pub fn windows_wait_at_the_last_cell<K: Key, S: Scheme>() -> u8
    ensures { Windows K.Key.below S.Scheme.table S.Scheme.strict S.Scheme.acts reach (λ p. p) }
{
    proved::windows_wait_at_the_last_cell::<K, S>()
}

/// Where two windows that begin at the head of the same list wait at one cell, their seats leave the same remainder by w. So seats that begin
/// together wait at different cells, as many as there are remainders.
pub fn first_windows_stop_apart<K: Key, S: Scheme>() -> u8
    ensures { StopApart K.Key.below S.Scheme.table S.Scheme.strict S.Scheme.acts (λ t w. t % w) }
{
    proved::first_windows_stop_apart::<K, S>()
}

/// A call may as well be lent other cells of the same number where it is answered ok or refused other than for a bad link, and
/// other rows where it is refused for a number, the sizes or the mask: the run goes on as if they were the index's own.
pub fn calls_may_be_lent_others<K: Key, S: Scheme>() -> u8
    ensures { OthersServe K.Key.below S.Scheme.table S.Scheme.strict S.Scheme.acts Refusal.BadLink }
{
    proved::calls_may_be_lent_others::<K, S>()
}

/// There are runs: a making for 1 to 1,008 given cells and windows of 1 to 64, and after every run every call.
pub fn runs_are_there<K: Key, S: Scheme>() -> u8
    ensures { RunsAreThere K.Key.below S.Scheme.table S.Scheme.strict S.Scheme.acts 1008 64 }
{
    proved::runs_are_there::<K, S>()
}
