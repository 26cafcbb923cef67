// What examples.rt and existence.rt promise, as proved: the public functions there only cite these, so that an edit of a public clause is
// refused at that clause.
ghost use Rattle.std.specs.Prelude.{suc, pred, Bool};
ghost use Rattle.worked_examples.specs.Sharp.{Sharp};
ghost use Rattle.worked_examples.specs.Examples.{Examples};
ghost use Rattle.list_law.specs.Existence.{Able};
ghost use Rattle.worked_examples.specs.Formed.{full_formed, owner_formed, version_formed, pair_formed, ThereAreRuns};

use keys::key::Key;
use marks::scheme::Scheme;
use schemes::full::Full;
use schemes::owner::Owner;
use schemes::pair::Pair;
use schemes::version::Version;

pub fn worked_examples() -> u8
    ensures { Examples 1 4 5 }
{
    0
}

pub fn promises_are_sharp() -> u8
    ensures { Sharp (λ steps. pred steps) (λ cells. suc cells) (λ place. suc place) }
{
    0
}

pub fn runs_are_there_by_name<K: Key, F: Scheme, S: Scheme>() -> u8
    ensures full { let it = ⟦<Full as Scheme>⟧ in
        ThereAreRuns K.Key.below it.table it.strict it.acts full_formed 1008 64 }
    ensures owner { let it = ⟦<Owner as Scheme>⟧ in
        ThereAreRuns K.Key.below it.table it.strict it.acts owner_formed 1008 64 }
    ensures version { let it = ⟦<Version as Scheme>⟧ in
        ThereAreRuns K.Key.below it.table it.strict it.acts version_formed 1008 64 }
    ensures pair { let it = ⟦<Pair<F, S> as Scheme>⟧ in (first : F → Bool) (second : S → Bool) →
        Able F.Scheme.table F.Scheme.strict F.Scheme.acts first →
        Able S.Scheme.table S.Scheme.strict S.Scheme.acts second →
        ThereAreRuns K.Key.below it.table it.strict it.acts (pair_formed first second) 1008 64 }
{
    0
}

pub fn runs_are_there_over_a_pair_of_a_pair<K: Key>() -> u8
    ensures { let it = ⟦<Pair<Pair<Full, Owner>, Version> as Scheme>⟧ in
        ThereAreRuns K.Key.below it.table
        it.strict it.acts (pair_formed (pair_formed full_formed owner_formed) version_formed) 1008 64 }
{
    runs_are_there_by_name::<K, Full, Owner>();
    runs_are_there_by_name::<K, Pair<Full, Owner>, Version>()
}
