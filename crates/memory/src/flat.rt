ghost use Rattle.std.specs.Prelude.{◌≡◌, length, take, slice_index, slice_set};
ghost use Rattle.memory.specs.Meaning.{take_within};

use crate::area::{Area, Packing};

// The first bytes of the host's area, at most 32,768.
pub type Flat<'a> = Area<'a, Whole>;

// Each area byte is a byte.
#[derive(Clone, Copy, Debug, PartialEq, Eq)]
pub struct Whole;

impl Packing for Whole {
    const MOST: usize = 32_768;

    ghost MOST = { 32768 };

    ghost unpacked = { take 32768 };

    ghost within = { take_within 32768 };

    fn size(area: &[u8]) -> usize {
        area.len().min(Self::MOST)
    }

    fn get(area: &[u8], address: usize) -> u8 {
        area[address]
    }

    fn put(area: &mut [u8], address: usize, byte: u8) {
        area[address] = byte;
    }
}
