ghost use Rattle.std.specs.Prelude.{◌≡◌, ℕ, ◌/◌, ◌<◌, true, is_some, IfSome, Some};
ghost use Rattle.std.specs.List.{position};
ghost use Rattle.plan.specs.Chart.{has_bit};
ghost use Rattle.plan.specs.Model.{planned};
ghost use Rattle.plan.specs.Tables.{decides, entry_at, for_tag, level_for, level_found, owner_of, page_at, place_in, slot_at};

use super::Plan;
use crate::chart::{Question, decide};
use crate::keyed::find;
use crate::records::{Entry, PAGE, Page};
use fault::level::Level;
use fault::refusal::Refusal;

// The level of a list's entry for a tag.
fn level_in(list: &[Entry], other: u8) -> Level
    ensures { result ≡ level_found list.now (position (for_tag other) list.now) }
{
    find(list, usize::from(other)).map_or(Level::Nothing, |i| list[i].level)
}

impl Plan {
    // The page of an address; one that is on no page counts as unplanned.
    pub fn page_at(&self, address: usize) -> Page
        ensures { result ≡ page_at (planned self.now) address }
    {
        self.pages.get(address / PAGE).copied().unwrap_or_default()
    }

    // The level that one tag has for another.
    pub fn level_for(&self, tag: u8, other: u8) -> Level
        ensures { result ≡ level_for (planned self.now) tag other }
    {
        if other == 0 {
            return Level::Nothing;
        }
        if tag == other {
            return Level::Write;
        }
        self.lists
            .get(usize::from(tag))
            .map_or(Level::Nothing, |list| level_in(list, other))
    }

    // The owner of a counter, 0 for the host.
    // Kept: a number, since the rules give the host 0 and compare an owner with the current tag.
    pub fn owner(&self, counter: u8) -> u8
        ensures { result ≡ owner_of (planned self.now) counter }
    {
        self.owners
            .get(usize::from(counter))
            .copied()
            .flatten()
            .unwrap_or(0)
    }

    // What entering at an address asks of its page.
    pub fn entry_at(&self, address: usize) -> Question
        ensures { result ≡ entry_at (planned self.now) address }
    {
        if address % 64 == 0 {
            Question::Door
        } else {
            Question::Elsewhere
        }
    }

    // What the chart refuses of a question at an address, at a level.
    pub fn decide(&self, question: Question, address: usize, level: Level) -> Option<Refusal>
        ensures { result ≡ decides (planned self.now) question address level }
    {
        decide(self.page_at(address).bits, level, question)
    }

    // The slot of an address, counted over all S pages. Every S page has eight of its own.
    pub fn slot_at(&self, address: usize) -> Option<usize>
        ensures value { result ≡ slot_at (planned self.now) address }
        ensures there { has_bit 16 (page_at (planned self.now) address).bits ≡ true → is_some result ≡ true }
        ensures own { IfSome result (λ i. (i < 64) × ((b : ℕ) → slot_at (planned self.now) b ≡ Some i → b / 32 ≡ address / 32)) }
    {
        self.place_in(address / PAGE)
            .map(|i| 8 * i + address % PAGE / 32)
    }

    // The place of an S page among the eight. Page 0, which is no S page, marks the first that none has taken.
    fn place_in(&self, page: usize) -> Option<usize>
        ensures value { result ≡ place_in self.now.stores.items page }
        ensures within { IfSome result (λ i. i < 8) }
    {
        let free = page == 0 && !self.stores.is_full();
        find(&self.stores, page).or(free.then_some(self.stores.len()))
    }
}
