ghost use Rattle.std.specs.Prelude.{◌≡◌, ℕ, ◌<◌, ◌≤◌, List, length, slice_index, slice_set};
ghost use Rattle.memory.specs.Meaning.{read_of, write_of, wrote};

use crate::{Memory, check};
use fault::report::Fault;
use std::marker::PhantomData;

// How the bytes of an area make the bytes of a memory.
pub(crate) trait Packing {
    // The longest list that is made.
    const MOST: usize;

    ghost MOST: { ℕ };

    ghost unpacked: { List ℕ → List ℕ };

    ghost within: { (area : List ℕ) → length (unpacked area) ≤ MOST };

    fn size(area: &[u8]) -> usize
        ensures { result ≡ length (unpacked area.now) };

    fn get(area: &[u8], address: usize) -> u8
        requires { address < length (unpacked area.now) }
        ensures { result ≡ slice_index (unpacked area.now) address };

    // Replaces the byte at the address alone.
    fn put(area: &mut [u8], address: usize, byte: u8)
        requires { address < length (unpacked area.old) }
        ensures { unpacked area.new ≡ slice_set (unpacked area.old) address byte };
}

// A memory in an area of the host.
#[derive(Drop)]
pub struct Area<'a, P> {
    area: &'a mut [u8],
    packing: PhantomData<P>,
}

impl<'a, P: Packing> Area<'a, P> {
    pub fn new(area: &'a mut [u8]) -> Area<'a, P>
        ensures { result.area.now ≡ area.old }
    {
        Self {
            area,
            packing: PhantomData,
        }
    }

    // The host's area, with what was written in it.
    pub fn into_area(self) -> &'a mut [u8]
        ensures { result.now ≡ self.entry.area.now }
    {
        self.area
    }
}

impl<'a, P: Packing> Memory for Area<'a, P> {
    const MOST: usize = P::MOST;

    ghost most = { P.MOST };

    ghost bytes = { λ s. P.unpacked s.area.now };

    ghost within = { λ s. P.within s.area.now };

    fn longest() -> usize
        ensures { result ≡ P.MOST }
    {
        P::MOST
    }

    fn size(&self) -> usize {
        P::size(self.area)
    }

    fn read(&self, address: usize) -> Result<u8, Fault> {
        check(address, self.size())?;
        Ok(P::get(self.area, address))
    }

    fn write(&mut self, address: usize, byte: u8) -> Result<(), Fault> {
        check(address, self.size())?;
        P::put(self.area, address, byte);
        Ok(())
    }
}
