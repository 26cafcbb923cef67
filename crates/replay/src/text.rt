// The text that answers what a schedule says.
ghost use Rattle.std.specs.Prelude.{◌≡◌, ◌+◌, ◌^◌, ◌<◌, ◌∷◌, ◌++◌, map, length, IfOk, OnOk, string_bytes};
ghost use Rattle.list_driver.specs.Asks.{ask_of};
ghost use Rattle.schedule.specs.Lines.{lines_from};
ghost use Rattle.replay.specs.Texts.{outcomes, Lawfully};
ghost use Rattle.replay.specs.Views.{refused_by};

use crate::calls::Calls;
use crate::runs::answers_by;
use basis::answer::Answer;
use basis::refusal::Refusal;
use records::record::Record;
use schedule::lines::{line, push_line, push_lines, text_of_line};
use std::alloc::{AllocError, Global};

// Adds the line of the refusal at which reading stopped, if there is one.
#[tactic(auto, using(std::proofs::lemmas::Grind::common_steps), unfolding(schedule::specs::Lines::lines_from))]
fn push_stop(text: &mut String, number: u16, stop: Option<Refusal>) -> Result<(), AllocError>
    ensures { OnOk result (string_bytes text.new ≡ string_bytes text.old ++ lines_from number (refused_by stop)) }
{
    if let Some(refusal) = stop {
        push_line(text, line(number, Answer::Refused(refusal)))?;
    }
    Ok(())
}

// A schedule with no record is answered by the refusal at which reading stopped, if there is one.
fn text_of_none(heap: Global, stop: Option<Refusal>) -> Result<String, AllocError>
    ensures { IfOk result (λ text. string_bytes text ≡ lines_from 1 (refused_by stop)) }
{
    let mut text = String::new(heap);
    push_stop(&mut text, 1, stop)?;
    Ok(text)
}

// An accepted setup, the answers of the calls, and the refusal at which reading stopped.
#[tactic(auto, using(std::proofs::lemmas::Grind::common_steps, schedule::proofs::Numbered::lines_join), unfolding(schedule::specs::Lines::lines_from))]
fn text_of_answers(
    heap: Global,
    answers: &[Answer],
    stop: Option<Refusal>,
) -> Result<String, AllocError>
    requires { length answers.now + 2 < 2 ^ 16 }
    ensures { IfOk result (λ text. string_bytes text ≡
        lines_from 1 (Answer.Ok ∷ (answers.now ++ refused_by stop))) }
{
    // room for lines of the usual length
    let mut text = String::with_capacity(heap, answers.len().saturating_mul(12))?;
    push_line(&mut text, line(1, Answer::Ok))?;
    push_lines(&mut text, 2, answers)?;
    push_stop(&mut text, answers.len() as u16 + 2, stop)?;
    Ok(text)
}

/// The text that answers a schedule. The number of each line is 16 bits: a schedule has no line with a number above 14,999.
pub fn text_of(heap: Global, calls: Calls) -> Result<String, AllocError>
    requires { length calls.asks.items + 2 < 2 ^ 16 }
    ensures { IfOk result (λ text. (string_bytes text ≡
        lines_from 1 (outcomes calls.setup (map ask_of calls.asks.items) (refused_by calls.stop))) ×
        Lawfully calls.setup (map ask_of calls.asks.items)) }
{
    let Calls { setup, asks, stop } = calls;
    let Some(setup) = setup else {
        return text_of_none(heap, stop);
    };
    let Record::Setup {
        scheme,
        cells,
        window,
    } = setup
    else {
        return Ok(String::new(heap));
    };
    let answers = answers_by(heap, scheme, cells, window, asks.as_slice())?;
    // the room of what was asked is given back before room for the text is taken
    drop(asks);
    match answers {
        Ok(answers) => text_of_answers(heap, answers.as_slice(), stop),
        Err(refusal) => text_of_line(heap, line(1, Answer::Refused(refusal))),
    }
}
