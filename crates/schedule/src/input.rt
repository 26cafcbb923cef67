// The bytes of a schedule, from whatever gives them.
ghost use Rattle.std.specs.Prelude.{◌≡◌, take, IfOk, IfSome};

use std::alloc::Global;
use std::io;
use std::io::Read;

/// All bytes that the reader gives, but no more than 60,001: one byte more than a schedule may have is enough to refuse it, however
/// long the input is.
pub fn read_schedule<R: Read + Drop>(heap: Global, reader: R) -> io::Result<Vec<u8>>
    ensures { IfOk result (λ bytes. IfSome (R.remaining reader) (λ given. bytes.items ≡ take 60001 given)) }
{
    let mut bytes = Vec::new(heap);
    reader.take(60001).read_to_end(&mut bytes)?;
    Ok(bytes)
}
