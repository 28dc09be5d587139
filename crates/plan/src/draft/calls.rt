ghost use Rattle.std.specs.Prelude.{◌≡◌, if◌then◌else◌, Ok, Err};
ghost use Rattle.plan.specs.Drafting.{blank, draft_after, draft_answer, draft_counter, draft_entry, draft_page};
ghost use Rattle.fault.specs.Faults.{bare_fault};
ghost use Rattle.plan.specs.Model.{drafted, planned};

use super::Draft;
use crate::keyed::find;
use crate::records::{Entry, Page, StorePage};
use crate::tables::Plan;
use arrayvec::ArrayVec;
use fault::level::Level;
use fault::refusal::Refusal;
use fault::report::Fault;
use std::array;

// Passes, or refuses; a draft has no place to tell.
fn demand(test: bool, refusal: Refusal) -> Result<(), Fault>
    ensures { result ≡ (if test then Ok tt else Err (bare_fault refusal 0)) }
{
    Fault::demand(test, refusal, 0)
}

impl Draft {
    // A draft in which page 0 alone is planned.
    pub fn new() -> Draft
        ensures { drafted result ≡ blank }
    {
        let mut pages = [Page::default(); 128];
        pages[0] = Page { tag: 1, bits: 5 };
        Draft {
            plan: Plan {
                pages,
                lists: array::from_fn(|_| ArrayVec::new()),
                owners: [None; 17],
                stores: ArrayVec::new(),
            },
        }
    }

    // Plans one of pages 1 to 127.
    pub fn page(&mut self, page: u32, tag: u32, bits: u32) -> Result<(), Fault>
        ensures answer { result ≡ draft_answer (draft_page (drafted self.old) page tag bits) }
        ensures after { drafted self.new ≡ draft_after (drafted self.old) (draft_page (drafted self.old) page tag bits) }
    {
        demand((1..=127).contains(&page), Refusal::DraftNumber)?;
        demand((1..=63).contains(&tag), Refusal::DraftTag)?;
        demand(bits <= 31, Refusal::DraftBits)?;
        // Kept: `as`, in this file. Tried with checks that answer the narrower number; the draft's proofs did not close.
        let planned = Page {
            tag: tag as u8,
            bits: bits as u8,
        };
        demand(
            !(planned.stores() && planned.executes()),
            Refusal::DraftBits,
        )?;
        demand(
            self.plan.pages[page as usize].tag == 0,
            Refusal::DraftRepeat,
        )?;
        if planned.stores() {
            demand(!self.plan.stores.is_full(), Refusal::DraftFull)?;
            self.plan.stores.push(StorePage { page: page as u8 });
        }
        self.plan.pages[page as usize] = planned;
        Ok(())
    }

    // Adds an entry to a tag's access list.
    pub fn entry(&mut self, tag: u32, to: u32, level: u32) -> Result<(), Fault>
        ensures answer { result ≡ draft_answer (draft_entry (drafted self.old) tag to level) }
        ensures after { drafted self.new ≡ draft_after (drafted self.old) (draft_entry (drafted self.old) tag to level) }
    {
        let tags = 1..=63;
        demand(
            tags.contains(&tag) && tags.contains(&to) && tag != to,
            Refusal::DraftTag,
        )?;
        let level = Level::try_from(level).map_err(|_| Fault::bare(Refusal::DraftBits, 0))?;
        let lists = &mut self.plan.lists[..];
        let list = &mut lists[tag as usize];
        demand(find(list, to as usize).is_none(), Refusal::DraftRepeat)?;
        demand(!list.is_full(), Refusal::DraftFull)?;
        list.push(Entry {
            tag: to as u8,
            level,
        });
        Ok(())
    }

    // Gives a counter an owner: a tag, or 0 for the host.
    pub fn counter(&mut self, counter: u32, owner: u32) -> Result<(), Fault>
        ensures answer { result ≡ draft_answer (draft_counter (drafted self.old) counter owner) }
        ensures after { drafted self.new ≡ draft_after (drafted self.old) (draft_counter (drafted self.old) counter owner) }
    {
        demand((1..=16).contains(&counter), Refusal::DraftNumber)?;
        demand(owner <= 63, Refusal::DraftTag)?;
        let old = self.plan.owners[counter as usize];
        demand(old.is_none(), Refusal::DraftRepeat)?;
        self.plan.owners[counter as usize] = Some(owner as u8);
        Ok(())
    }

    // The plan, once nothing more is to be planned.
    pub fn into_plan(self) -> Plan
        ensures { planned result ≡ (drafted self).plan }
    {
        let Draft { plan } = self;
        plan
    }
}
