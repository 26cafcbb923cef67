// The replay as functions that C can call.
#![tactic(auto)]

ghost use Rattle.std.specs.Prelude.{◌≡◌};
ghost use Rattle.exports.specs.Written.{Placed, Exported};

use key_types::sector::Sector;
use list_cells::cell::Cell;
use replay::replay;
use std::alloc::Global;

// What is returned in place of a length where memory runs out, and where the room is too short. C gets numbers, since it has no `Result`.
const NO_MEMORY: usize = usize::MAX;

const NO_ROOM: usize = usize::MAX - 1;

// Writes a text into the room, and returns its length; where the room is too short, nothing is written, and the number says so. The
// number is told here: the export's promise lets memory run out anywhere, and would let a short room be told as that.
fn write_text(text: &[u8], room: &mut [u8]) -> usize
    ensures { Placed text.now room.old room.new result }
{
    if text.len() > room.len() {
        return NO_ROOM;
    }
    room[..text.len()].copy_from_slice(text);
    text.len()
}

/// Writes the text that answers a schedule into the room, and returns its length; where memory runs out or the room is too short, nothing
/// is written, and the number says which of the two it was.
#[unsafe(no_mangle)]
pub extern "C" fn marked_list_replay(heap: Global, bytes: &[u8], room: &mut [u8]) -> usize
    ensures { Exported bytes.now room.old room.new result }
{
    match replay(heap, bytes) {
        Err(_) => NO_MEMORY,
        Ok(text) => write_text(text.as_bytes(), room),
    }
}

/// How many bytes a cell with a sector takes.
#[unsafe(no_mangle)]
pub extern "C" fn marked_list_cell_bytes() -> usize
    ensures { result ≡ 8 }
{
    std::mem::size_of::<Cell<Sector>>()
}

#[cfg(test)]
mod tests;
