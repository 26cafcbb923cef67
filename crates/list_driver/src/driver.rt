// The driver: makes an index and runs a list of calls on it.
ghost use Rattle.std.specs.Prelude.{◌≡◌, ◌==◌, [], map, length};
ghost use Rattle.list_driver.specs.Asks.{ask_of, driving_case, Ran};
ghost use Rattle.list.specs.Calls.{CalledOn};
ghost use Rattle.list_window.specs.Turns.{what_of};
ghost use Rattle.list_window.specs.Lent.{lent_state, SameLent};
ghost use Rattle.basis.specs.Answers.{answer, settled};
ghost use Rattle.list_law.specs.Driven.{Driven};

use basis::answer::Answer;
use basis::mask::Mask;
use basis::refusal::Refusal;
use keys::key::Key;
use list::call::make_call;
use list_making::making::make;
use list_window::index::Index;
use list_window::turn::Request;
use marks::scheme::Scheme;

/// What a seat asks, by plain number, at which mask level.
#[derive(Clone, Copy, PartialEq, Eq, Debug)]
pub struct Ask<K> {
    pub seat: u8,
    pub level: u8,
    pub request: Request<K>,
}

// One call of the list, at its own mask level.
fn run_ask<K: Key, S: Scheme>(index: &mut Index<'_, K, S>, mask: &mut Mask, ask: Ask<K>) -> Answer
    ensures called { CalledOn K.Key.below S.Scheme.table S.Scheme.strict S.Scheme.acts index.old (what_of ask.request)
        ask.seat ask.level result index.new }
{
    mask.level = ask.level;
    make_call(index, mask, ask.seat, ask.request)
}

// Runs the calls one after another, and writes the answer of each. Calls and answers are two slices: the caller lends room for the answers.
fn drive<K: Key, S: Scheme>(
    index: &mut Index<'_, K, S>,
    mask: &mut Mask,
    asks: &[Ask<K>],
    answers: &mut [Answer],
)
    requires { (length asks.now ≡ length answers.old) ×
        ((length index.old.rows.now ≡ 16) ×
        (Driven K.Key.below S.Scheme.table S.Scheme.strict S.Scheme.acts (length index.old.cells.now)
        index.old.anchor.now.window (lent_state index.old) [] [] (lent_state index.old))) }
    ensures driven { Driven K.Key.below S.Scheme.table S.Scheme.strict S.Scheme.acts (length index.old.cells.now)
        index.old.anchor.now.window (lent_state index.old) (map ask_of asks.now) answers.new (lent_state index.new) }
    ensures same { SameLent index.old index.new }
{
    // the answers by index: in a loop over `asks.iter().zip(answers.iter_mut())` no fact says which answers are written so far
    for (at, ask) in asks.iter().enumerate() {
        answers[at] = run_ask(index, mask, *ask);
    }
}

// Whether there is room for the answer of each call, and for no more.
fn room_for_each(calls: usize, answers: usize) -> bool
    ensures { result ≡ (calls == answers) }
{
    calls == answers
}

/// Makes an index over what is lent and runs the calls on it, each at its own mask level, and writes their answers; the mask is then as it
/// was. Refused, with nothing altered, where there are not as many answers as calls or the sizes do not fit.
pub fn run_calls<K: Key, S: Scheme>(
    index: &mut Index<'_, K, S>,
    mask: &mut Mask,
    window: u8,
    asks: &[Ask<K>],
    answers: &mut [Answer],
) -> Result<(), Refusal>
    ensures ran { Ran K.Key.below S.Scheme.table S.Scheme.strict S.Scheme.acts (length index.old.cells.now)
        (length index.old.rows.now) window (map ask_of asks.now) answers.old (lent_state index.old) (settled result)
        answers.new (lent_state index.new) }
    ensures case { answer (settled result) ≡ driving_case (length index.old.cells.now) (length index.old.rows.now)
        window (length asks.now) (length answers.old) }
    ensures level { mask.new.level ≡ mask.old.level }
    ensures same { SameLent index.old index.new }
{
    if !room_for_each(asks.len(), answers.len()) {
        return Err(Refusal::WrongSizes);
    }
    make(index, window)?;
    let level = mask.level;
    drive(index, mask, asks, answers);
    mask.level = level;
    Ok(())
}
