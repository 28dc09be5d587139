ghost use Rattle.std.specs.Prelude.{◌≡◌, length};
ghost use Rattle.memory.specs.Blocks.{block_of, stored};

use crate::{Memory, outside};
use fault::report::Fault;

// Writes a block of bytes from `start` on. A block that reaches past the end is refused whole, at its
// first address outside, and nothing is written.
pub fn store<M: Memory>(memory: &mut M, start: usize, block: &[u8]) -> Result<(), Fault>
    ensures answer { result ≡ block_of (M.bytes memory.old) start (length block.now) }
    ensures after { M.bytes memory.new ≡ stored result (M.bytes memory.old) start block.now }
{
    let size = memory.size();
    if start > size || block.len() > size - start {
        return Err(outside(start.max(size), size));
    }
    for (address, byte) in (start..size).zip(block) {
        memory.write(address, *byte)?;
    }
    Ok(())
}
