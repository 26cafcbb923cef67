// That there are runs over each scheme of the product, by name.
ghost use Rattle.std.specs.Prelude.{Bool};
ghost use Rattle.list_law.specs.Existence.{Able};
ghost use Rattle.worked_examples.specs.Formed.{full_formed, owner_formed, version_formed, pair_formed, ThereAreRuns};

use crate::proved;
use keys::key::Key;
use marks::scheme::Scheme;
use schemes::full::Full;
use schemes::owner::Owner;
use schemes::pair::Pair;
use schemes::version::Version;

/// Over the full, the owner and the version scheme, and over a pair of any two that can carry out their orders: a making for 1 to 1,008
/// given cells, windows of 1 to 64 and every value that the scheme's code makes, and after every run every call. A pair can then carry out
/// its own orders, so the same holds of pairs of pairs.
pub fn runs_are_there_by_name<K: Key, F: Scheme, S: Scheme>() -> u8
    ensures full { let it = ⟦<Full as Scheme>⟧ in
        ThereAreRuns K.Key.below it.table it.strict it.acts full_formed 1008 64 }
    ensures owner { let it = ⟦<Owner as Scheme>⟧ in
        ThereAreRuns K.Key.below it.table it.strict it.acts owner_formed 1008 64 }
    ensures version { let it = ⟦<Version as Scheme>⟧ in
        ThereAreRuns K.Key.below it.table it.strict it.acts version_formed 1008 64 }
    ensures pair { let it = ⟦<Pair<F, S> as Scheme>⟧ in (first : F → Bool) (second : S → Bool) →
        Able F.Scheme.table F.Scheme.strict F.Scheme.acts first →
        Able S.Scheme.table S.Scheme.strict S.Scheme.acts second →
        ThereAreRuns K.Key.below it.table it.strict it.acts (pair_formed first second) 1008 64 }
{
    proved::runs_are_there_by_name::<K, F, S>()
}

/// And over full and owner side by side with version beside them: what is promised of two schemes, used twice.
pub fn runs_are_there_over_a_pair_of_a_pair<K: Key>() -> u8
    ensures { let it = ⟦<Pair<Pair<Full, Owner>, Version> as Scheme>⟧ in
        ThereAreRuns K.Key.below it.table
        it.strict it.acts (pair_formed (pair_formed full_formed owner_formed) version_formed) 1008 64 }
{
    proved::runs_are_there_over_a_pair_of_a_pair::<K>()
}
