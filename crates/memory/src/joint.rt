ghost use Rattle.std.specs.Prelude.{◌≡◌, ◌++◌, take};
ghost use Rattle.memory.specs.Meaning.{read_of, write_of, wrote, take_within};

use crate::{Memory, check};
use fault::report::Fault;

// The longest list of a joint memory.
// Kept: with `Self::MOST` in its place the proofs stay open, for `Memory` has no ghost that ties it.
const LONGEST: usize = 32_768;

// Two memories of any make end to end, cut at 32,768 bytes.
#[derive(Drop)]
pub struct Joint<A, B> {
    low: A,
    high: B,
}

impl<A: Memory, B: Memory> Joint<A, B> {
    pub fn new(low: A, high: B) -> Joint<A, B>
        ensures { (result.low ≡ low) × (result.high ≡ high) }
    {
        Self { low, high }
    }

    // The two memories, with what was written in them.
    pub fn into_parts(self) -> (A, B)
        ensures { (result.0 ≡ self.low) × (result.1 ≡ self.high) }
    {
        let Joint { low, high } = self;
        (low, high)
    }
}

impl<A: Memory, B: Memory> Memory for Joint<A, B> {
    const MOST: usize = LONGEST;

    ghost most = { 32768 };

    ghost bytes = { λ s. take 32768 (A.Memory.bytes s.low ++ B.Memory.bytes s.high) };

    ghost within = { λ s. take_within 32768 (A.Memory.bytes s.low ++ B.Memory.bytes s.high) };

    fn longest() -> usize
        ensures { result ≡ 32768 }
    {
        LONGEST
    }

    fn size(&self) -> usize {
        let low = self.low.size().min(LONGEST);
        low + self.high.size().min(LONGEST - low)
    }

    fn read(&self, address: usize) -> Result<u8, Fault> {
        check(address, self.size())?;
        let low = self.low.size();
        if address < low {
            self.low.read(address)
        } else {
            self.high.read(address - low)
        }
    }

    fn write(&mut self, address: usize, byte: u8) -> Result<(), Fault> {
        check(address, self.size())?;
        let low = self.low.size();
        if address < low {
            self.low.write(address, byte)
        } else {
            self.high.write(address - low, byte)
        }
    }
}
