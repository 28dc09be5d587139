ghost use Rattle.std.specs.Prelude.{◌≡◌, length, slice_index, slice_set};
ghost use Rattle.memory.specs.Meaning.{join_halves, halves-within};

use crate::area::{Area, Packing};

// A memory of halves, at most 16,384 bytes.
pub type Nibble<'a> = Area<'a, Halves>;

// Two area bytes to a byte: the low half of byte a lies in area byte 2a, the high half in 2a + 1.
// The upper halves of area bytes are ignored on reading and written as 0.
#[derive(Clone, Copy, Debug, PartialEq, Eq)]
pub struct Halves;

impl Packing for Halves {
    const MOST: usize = 16_384;

    ghost MOST = { 16384 };

    ghost unpacked = { join_halves 16384 };

    ghost within = { halves-within 16384 };

    fn size(area: &[u8]) -> usize {
        (area.len() / 2).min(Self::MOST)
    }

    fn get(area: &[u8], address: usize) -> u8 {
        prove!(address < area.len() / 2);
        let low = area[2 * address] % 16;
        let high = area[2 * address + 1] % 16;
        low + 16 * high
    }

    fn put(area: &mut [u8], address: usize, byte: u8) {
        prove!(address < area.len() / 2);
        area[2 * address] = byte % 16;
        area[2 * address + 1] = byte / 16;
    }
}
