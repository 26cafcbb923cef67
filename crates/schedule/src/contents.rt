// A whole schedule, read to where reading stops.
ghost use Rattle.std.specs.Prelude.{IfOk};
ghost use Rattle.schedule.specs.Whole.{Holds};

use crate::reader::{Part, Reader};
use basis::refusal::Refusal;
use std::alloc::{AllocError, Global};

/// The records of a schedule in their order, the refusal at which reading stopped, None where it came to the end, and the offset there.
#[derive(PartialEq, Eq, Debug, Drop)]
pub struct Contents<'a> {
    pub parts: Vec<Part<'a>>,
    pub refusal: Option<Refusal>,
    pub stop: usize,
}

/// Everything that the reader hands out of these bytes.
pub fn read_whole(heap: Global, bytes: &[u8]) -> Result<Contents<'_>, AllocError>
    ensures { IfOk result (Holds bytes.entry) }
{
    let mut parts = Vec::new(heap);
    let mut reader = match Reader::open(bytes) {
        Ok(reader) => reader,
        Err(refusal) => {
            return Ok(Contents {
                parts,
                refusal: Some(refusal),
                stop: 0,
            });
        }
    };
    // No `for`: a reader has no end of its own, since it gives its refusal again at each further asking. `while let` left open what an `Ok`
    // holds after the loop. The replay has a loop of its own like this one, which says why.
    let refusal = loop {
        match reader.next() {
            Ok(Some(part)) => parts.push(part)?,
            Ok(None) => break None,
            Err(refusal) => break Some(refusal),
        }
    };
    Ok(Contents {
        parts,
        refusal,
        stop: reader.offset(),
    })
}
