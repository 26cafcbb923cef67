// A schedule in, its lines out.
#![tactic(auto)]

ghost use Rattle.std.specs.Prelude.{IfOk, string_bytes};
ghost use Rattle.replay.specs.Texts.{Replayed};

mod calls;
pub mod opening;
mod runs;
mod text;

use crate::calls::read_calls;
use crate::text::text_of;
use basis::answer::Answer;
use schedule::lines::{line, text_of_line};
use std::alloc::{AllocError, Global};

/// The text that answers a schedule: a line for each record, until reading or the setup is refused. A schedule that is not opened is
/// answered on line 0.
pub fn replay(heap: Global, bytes: &[u8]) -> Result<String, AllocError>
    ensures { IfOk result (λ text. Replayed bytes.now (string_bytes text)) }
{
    match read_calls(heap, bytes)? {
        Ok(calls) => text_of(heap, calls),
        Err(refusal) => text_of_line(heap, line(0, Answer::Refused(refusal))),
    }
}
