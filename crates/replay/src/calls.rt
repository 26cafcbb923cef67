// What a schedule asks of the index.
ghost use Rattle.std.specs.Prelude.{◌≡◌, ◌++◌, map, Some, None, IfOk, OnOk, MatchResult};
ghost use Rattle.basis.specs.Refusals.{refusal};
ghost use Rattle.schedule.specs.Reading.{open_refusal};
ghost use Rattle.list_driver.specs.Asks.{ask_of};
ghost use Rattle.replay.specs.Answers.{asked_by, first_of};
ghost use Rattle.replay.specs.Views.{listed_ask, Says};

use basis::refusal::Refusal;
use key_types::sector::Sector;
use list_driver::driver::Ask;
use list_window::turn::Request;
use records::record::Record;
use schedule::reader::Reader;
use std::alloc::{AllocError, Global};

// What a record asks, with interrupts open; a setup asks nothing. A function and no `From`, since neither type is of this crate.
fn ask_by(content: Record) -> Option<Ask<Sector>>
    ensures { listed_ask result ≡ asked_by content }
{
    let (seat, request) = match content {
        Record::Setup { .. } => return None,
        Record::Join { seat } => (seat, Request::Join),
        Record::Leave { seat } => (seat, Request::Leave),
        Record::Begin { kind, seat, sector } => {
            let target = Sector { number: sector };
            (seat, Request::Begin { kind, target })
        }
        Record::Step { seat } => (seat, Request::Step),
        Record::Abandon { seat } => (seat, Request::Abandon),
    };
    let level = 0;
    Some(Ask {
        seat,
        level,
        request,
    })
}

/// What a schedule says: its setup, what the calls after it ask, and the refusal at which reading stopped, None where it came to the end.
#[derive(PartialEq, Eq, Debug, Drop)]
pub struct Calls {
    pub setup: Option<Record>,
    pub asks: Vec<Ask<Sector>>,
    pub stop: Option<Refusal>,
}

// The first record of all: the one that was first so far, or else this one.
fn first_of(first: Option<Record>, content: Record) -> Option<Record>
    ensures { result ≡ first_of first content }
{
    first.or(Some(content))
}

// One record more.
fn push_ask(asks: &mut Vec<Ask<Sector>>, content: Record) -> Result<(), AllocError>
    ensures { OnOk result (map ask_of asks.new.items ≡ map ask_of asks.old.items ++ asked_by content) }
{
    if let Some(ask) = ask_by(content) {
        asks.push(ask)?;
    }
    Ok(())
}

/// Everything that the reader hands out of these bytes, or the refusal to open them.
#[inline(never)]
pub fn read_calls(heap: Global, bytes: &[u8]) -> Result<Result<Calls, Refusal>, AllocError>
    ensures { IfOk result (λ r. MatchResult r
        (λ c. (open_refusal bytes.now ≡ None) × Says bytes.now c)
        (λ e. open_refusal bytes.now ≡ Some (refusal e).number)) }
{
    let mut reader = match Reader::open(bytes) {
        Ok(reader) => reader,
        Err(refusal) => return Ok(Err(refusal)),
    };
    let mut setup = None;
    // a record has four bytes at least
    let mut asks = Vec::with_capacity(heap, bytes.len() / 4)?;
    // This loop stands in `schedule::contents` too. One loop that fills a struct by a method was tried: a replay took 9 per cent longer, and may
    // take 3.
    let stop = loop {
        match reader.next() {
            Ok(Some(part)) => {
                setup = first_of(setup, part.content);
                push_ask(&mut asks, part.content)?;
            }
            Ok(None) => break None,
            Err(refusal) => break Some(refusal),
        }
    };
    Ok(Ok(Calls { setup, asks, stop }))
}
