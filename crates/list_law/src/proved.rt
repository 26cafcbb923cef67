// What law.rt promises, as proved: the public functions there only cite these. Each stands twice so that an edit of a public clause is refused
// at that clause, and not because a proof no longer fits it.
ghost use Rattle.std.specs.Prelude.{suc, ◌+◌, ◌*◌, ◌%◌, Bool};
ghost use Rattle.marks.specs.Meaning.{Table};
ghost use Rattle.basis.specs.declared.refusal.Refusal.{Refusal};
ghost use Rattle.list_law.specs.Call.{reach};
ghost use Rattle.list_law.specs.Law.{Law, Windows, most_waits};
ghost use Rattle.list_law.specs.Apart.{StopApart};
ghost use Rattle.list_law.specs.Elsewhere.{OthersServe};
ghost use Rattle.list_law.specs.Existence.{unconstrained, RunsAreThere};

use keys::key::Key;
use marks::scheme::Scheme;

pub fn every_run_is_lawful<K: Key, S: Scheme>() -> u8
    ensures { Law K.Key.below S.Scheme.table S.Scheme.strict
        S.Scheme.acts (λ n w t kind k. suc k * most_waits n w t + 1) }
{
    0
}

pub fn every_run_over_plain_marks_is_lawful<K: Key>() -> u8
    ensures { (keeps : Bool) →
        Law K.Key.below (λ (m : Table). m) keeps unconstrained (λ n w t kind k. suc k * most_waits n w t + 1) }
{
    0
}

pub fn windows_wait_at_the_last_cell<K: Key, S: Scheme>() -> u8
    ensures { Windows K.Key.below S.Scheme.table S.Scheme.strict S.Scheme.acts reach (λ p. p) }
{
    0
}

pub fn first_windows_stop_apart<K: Key, S: Scheme>() -> u8
    ensures { StopApart K.Key.below S.Scheme.table S.Scheme.strict S.Scheme.acts (λ t w. t % w) }
{
    0
}

pub fn calls_may_be_lent_others<K: Key, S: Scheme>() -> u8
    ensures { OthersServe K.Key.below S.Scheme.table S.Scheme.strict S.Scheme.acts Refusal.BadLink }
{
    0
}

pub fn runs_are_there<K: Key, S: Scheme>() -> u8
    ensures { RunsAreThere K.Key.below S.Scheme.table S.Scheme.strict S.Scheme.acts 1008 64 }
{
    0
}
