ghost use Rattle.std.specs.Prelude.{◌≡◌, ◌==◌, ◌<◌};
ghost use Rattle.plan.specs.Chart.{has_bit};

use crate::keyed::Keyed;
use fault::level::Level;

// How many addresses a page has.
pub const PAGE: usize = 256;

// A page's tag and the sum of its bits: R 1, W 2, X 4, P 8, S 16. An unplanned page has tag 0 and bits 0.
// Kept: tag 0 is none and bits are a sum, since rules, plans and the chart say them as these numbers.
#[derive(Clone, Copy, PartialEq, Eq, Debug, Default)]
pub struct Page {
    pub tag: u8,
    pub bits: u8,
}

// What three of the bits are worth.
const EXECUTES: u8 = 4;

const PRIVILEGED: u8 = 8;

const STORES: u8 = 16;

impl Page {
    fn has_bit(self, worth: u8) -> bool
        requires { 0 < worth }
        ensures { result ≡ has_bit worth self.bits }
    {
        self.bits / worth % 2 == 1
    }

    // Code here may run.
    pub fn executes(self) -> bool
        ensures { result ≡ has_bit 4 self.bits }
    {
        self.has_bit(EXECUTES)
    }

    // Code here may use the panel.
    pub fn privileged(self) -> bool
        ensures { result ≡ has_bit 8 self.bits }
    {
        self.has_bit(PRIVILEGED)
    }

    // The page stores capabilities in place of bytes.
    pub fn stores(self) -> bool
        ensures { result ≡ has_bit 16 self.bits }
    {
        self.has_bit(STORES)
    }
}

// An entry of an access list: the level for another tag.
#[derive(Clone, Copy, PartialEq, Eq, Debug, Default)]
pub struct Entry {
    pub tag: u8,
    pub level: Level,
}

// A page that stores capabilities.
#[derive(Clone, Copy, PartialEq, Eq, Debug, Default)]
pub struct StorePage {
    pub page: u8,
}

impl Keyed for Entry {
    ghost under = { λ s k. (s.tag == k) };

    fn is_under(&self, key: usize) -> bool {
        usize::from(self.tag) == key
    }
}

impl Keyed for StorePage {
    ghost under = { λ s k. (s.page == k) };

    fn is_under(&self, key: usize) -> bool {
        usize::from(self.page) == key
    }
}
