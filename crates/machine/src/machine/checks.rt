ghost use Rattle.std.specs.Prelude.{◌≡◌, ◌<◌};
ghost use Rattle.fault.specs.Faults.{access_fault, bare_fault};
ghost use Rattle.machine.specs.Checks.{access_at, access_check, addressed, byte_check, demand, entrance, judgement, level_at, listed, owned_by, slot_check, span_check, unspent};
ghost use Rattle.machine.specs.Model.{core_of, plan_of};
ghost use Rattle.machine.specs.State.{place_of, tag_now};

use super::{LAST_READING, Machine};
use capability::holding::reading_of;
use capability::right::{ADDRESSES, Right, Span};
use fault::level::Level;
use fault::refusal::Refusal;
use fault::report::{Access, Fault};
use plan::chart::Question;

impl<M> Machine<M> {
    pub(crate) fn bare(&self, refusal: Refusal) -> Fault
        ensures { result ≡ bare_fault refusal (place_of (core_of self.now)) }
    {
        Fault::bare(refusal, self.engine.place)
    }

    pub(crate) fn demand(&self, refusal: Refusal, test: bool) -> Result<(), Fault>
        ensures { result ≡ demand (core_of self.now) refusal test }
    {
        Fault::demand(test, refusal, self.engine.place)
    }

    pub(crate) fn addressed(&self, address: usize) -> Result<(), Fault>
        ensures { result ≡ addressed (core_of self.now) address }
    {
        self.demand(Refusal::AddressRange, address < ADDRESSES)
    }

    // A capability's span is not empty and ends within the addresses.
    pub(crate) fn span_check(&self, right: Right) -> Result<(), Fault>
        ensures { result ≡ span_check (core_of self.now) right.base right.size }
    {
        self.demand(Refusal::BadSpan, right.span().is_valid())
    }

    // A counter belongs to a tag, or to the host, which is 0.
    pub(crate) fn owned_by(&self, counter: u8, owner: u8) -> Result<(), Fault>
        ensures { result ≡ owned_by (plan_of self.now) (core_of self.now) counter owner }
    {
        self.demand(Refusal::NotOwner, self.plan.owner(counter) == owner)
    }

    // A counter can still be raised.
    pub(crate) fn unspent(&self, counter: u8) -> Result<(), Fault>
        ensures { result ≡ unspent (core_of self.now) counter }
    {
        self.demand(
            Refusal::CounterSpent,
            reading_of(&self.counters, counter) < LAST_READING,
        )
    }

    pub(crate) fn tag(&self) -> u8
        ensures { result ≡ tag_now (plan_of self.now) (core_of self.now) }
    {
        self.plan.page_at(self.engine.place).tag
    }

    // The level that a tag's list gives at an address.
    pub(crate) fn listed(&self, tag: u8, address: usize) -> Level
        ensures { result ≡ listed (plan_of self.now) tag address }
    {
        self.plan.level_for(tag, self.plan.page_at(address).tag)
    }

    // The greatest level that the current tag and the live registers give over all bytes of a span.
    pub(crate) fn level_at(&self, asked: Span) -> Level
        ensures { result ≡ level_at (plan_of self.now) (core_of self.now) asked.base asked.size }
    {
        let listed = self.listed(self.tag(), asked.base);
        self.engine.registers.raise(listed, &self.counters, asked)
    }

    // The fault of an access that the level at an address does not allow.
    pub(crate) fn denied(&self, refusal: Refusal, address: usize, level: Level) -> Fault
        ensures { result ≡ access_fault refusal (place_of (core_of self.now)) (access_at (plan_of self.now) address level) }
    {
        let tag = self.plan.page_at(address).tag;
        let access = Access {
            address,
            tag,
            level,
        };
        Fault::access(refusal, self.engine.place, access)
    }

    // Reads a decision off the chart.
    pub(crate) fn judge(&self, question: Question, asked: Span) -> Result<(), Fault>
        ensures { result ≡ judgement (plan_of self.now) (core_of self.now) question asked.base asked.size }
    {
        let level = self.level_at(asked);
        match self.plan.decide(question, asked.base, level) {
            None => Ok(()),
            Some(refusal) => Err(self.denied(refusal, asked.base, level)),
        }
    }

    // What the bytes from an address on need: an address that is a multiple, and the chart's leave.
    fn access_check<const ALIGNMENT: usize, const WIDTH: usize>(
        &self,
        question: Question,
        address: usize,
    ) -> Result<(), Fault>
        requires { 0 < ALIGNMENT }
        ensures { result ≡ access_check (plan_of self.now) (core_of self.now) question address ALIGNMENT WIDTH }
    {
        self.addressed(address)?;
        self.demand(Refusal::Misaligned, address % ALIGNMENT == 0)?;
        let asked = Span {
            base: address,
            size: WIDTH,
        };
        self.judge(question, asked)
    }

    pub(crate) fn entrance(&self, to: usize) -> Result<(), Fault>
        ensures { result ≡ entrance (plan_of self.now) (core_of self.now) to }
    {
        self.access_check::<4, 1>(self.plan.entry_at(to), to)
    }

    pub(crate) fn byte_check(&self, question: Question, address: usize) -> Result<(), Fault>
        ensures { result ≡ byte_check (plan_of self.now) (core_of self.now) question address }
    {
        self.access_check::<1, 1>(question, address)
    }

    pub(crate) fn slot_check(&self, question: Question, address: usize) -> Result<(), Fault>
        ensures { result ≡ slot_check (plan_of self.now) (core_of self.now) question address }
    {
        self.access_check::<32, 32>(question, address)
    }
}
