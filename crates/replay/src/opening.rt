// What the opening of a schedule is answered: nothing is made, and no call is run.
ghost use Rattle.std.specs.Prelude.{◌≡◌, IfOk, string_bytes};
ghost use Rattle.replay.specs.Opening.{setup_answer, opening_of};

use basis::answer::Answer;
use basis::refusal::Refusal;
use list_window::sizes::sizes_fit;
use records::record::Record;
use schedule::lines::{line, text_of_line};
use schedule::reader::Reader;
use std::alloc::{AllocError, Global};

// What the first record is answered.
fn setup_answer(content: Record) -> Answer
    ensures { result ≡ setup_answer content }
{
    match content {
        Record::Setup {
            scheme: _,
            cells,
            window,
        } => {
            if sizes_fit(usize::from(cells), 16, window) {
                Answer::Ok
            } else {
                Answer::Refused(Refusal::WrongSizes)
            }
        }
        _ => Answer::Refused(Refusal::BadRecord),
    }
}

/// The line that answers the first record of a schedule, or the refusal to open it; no line where there is no record. The text of a replay
/// begins with it.
pub fn answer_opening(heap: Global, bytes: &[u8]) -> Result<String, AllocError>
    ensures { IfOk result (λ text. string_bytes text ≡ opening_of bytes.now) }
{
    let mut reader = match Reader::open(bytes) {
        Ok(reader) => reader,
        Err(refusal) => return text_of_line(heap, line(0, Answer::Refused(refusal))),
    };
    match reader.next() {
        Ok(Some(part)) => text_of_line(heap, line(1, setup_answer(part.content))),
        Ok(None) => Ok(String::new(heap)),
        Err(refusal) => text_of_line(heap, line(1, Answer::Refused(refusal))),
    }
}
