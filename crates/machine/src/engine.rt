ghost use Rattle.std.specs.Prelude.{◌≡◌, ◌≤◌, true, length, slice_index};
ghost use Rattle.machine.specs.Sound.{climbs, ladder};

use crate::frame::Frame;
use arrayvec::ArrayVec;
use capability::holding::Holding;
use capability::registers::Registers;

pub mod parts;

// What runs: the place, the registers, the frames and the capability stack, with the floor of the newest frame.
#[derive(Drop)]
pub struct Engine {
    pub(crate) place: usize,
    pub(crate) values: [u32; 8],
    pub(crate) registers: Registers,
    pub(crate) frames: ArrayVec<Frame, 32>,
    pub(crate) stack: ArrayVec<Holding, 64>,
    pub(crate) floor: usize,
    ghost values8: { length values ≡ 8 },
    ghost shallow: { length frames.items ≤ 32 },
    ghost low: { length stack.items ≤ 64 },
    ghost rising: { climbs (ladder frames.items floor (length stack.items)) ≡ true },
    ghost bottom: { slice_index (ladder frames.items floor (length stack.items)) 0 ≡ 0 },
}
