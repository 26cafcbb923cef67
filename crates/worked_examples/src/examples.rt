// The worked examples as one theorem, and which stronger promises are false.
ghost use Rattle.std.specs.Prelude.{suc, pred};
ghost use Rattle.worked_examples.specs.Sharp.{Sharp};
ghost use Rattle.worked_examples.specs.Examples.{Examples};

use crate::proved;

/// Runs over the full scheme. On three cells: with window 2 a mark on place 1 is struck by a removal and the place is used again; a lookup
/// takes as many steps as the bound allows, 4 by seat 0 with window 1, 2 by seat 1 with window 2, and 1 by seat 3 with window 4. On sixteen
/// cells: all seats begin together and wait at sixteen different cells. And facts: seat 0's mark in the owner scheme is lost to seat 1,
/// the version's counter starts again, places 3 and 19 share slot 5, and of two wear keys the one with the lower count is below.
pub fn worked_examples() -> u8
    ensures { Examples 1 4 5 }
{
    proved::worked_examples()
}

/// Each of these is false: the bound by a step less for all changes (for seat 0; for seats whose first window meets more cells; and where it
/// may meet more than there are), the width by a cell more (from the head; from a mark), the mark by a place on.
pub fn promises_are_sharp() -> u8
    ensures { Sharp (λ steps. pred steps) (λ cells. suc cells) (λ place. suc place) }
{
    proved::promises_are_sharp()
}
