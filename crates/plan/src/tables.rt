ghost use Rattle.std.specs.Prelude.{◌≡◌, ◌≤◌, length};
ghost use Rattle.plan.specs.Tables.{Proper, StartsFirst, Stored, Twelves};

use crate::records::{Entry, Page, StorePage};
use arrayvec::ArrayVec;

pub mod queries;

// A plan. Lists stand under their tags and owners under their counters; place 0 of both is unused. A counter with no
// owner is the host's.
#[derive(Drop)]
pub struct Plan {
    pub(crate) pages: [Page; 128],
    pub(crate) lists: [ArrayVec<Entry, 12>; 64],
    pub(crate) owners: [Option<u8>; 17],
    pub(crate) stores: ArrayVec<StorePage, 8>,
    ghost pages128: { length pages ≡ 128 },
    ghost lists64: { length lists ≡ 64 },
    ghost twelves: { Twelves lists },
    ghost owners17: { length owners ≡ 17 },
    ghost stores8: { length stores.items ≤ 8 },
    ghost proper: { Proper pages },
    ghost first: { StartsFirst pages },
    ghost stored: { Stored pages stores.items },
}
