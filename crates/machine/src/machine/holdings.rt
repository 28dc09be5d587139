ghost use Rattle.std.specs.Prelude.{◌≡◌};
ghost use Rattle.machine.specs.Actions.{Yields};
ghost use Rattle.machine.specs.Model.{core_of, model, plan_of};
ghost use Rattle.machine.specs.Rules.{content, drop_rule, fetch_rule, keep_rule, pop_rule, push_rule};
ghost use Rattle.machine.specs.Checks.{is_short};
ghost use Rattle.plan.specs.Tables.{slot_at};

use super::Machine;
use capability::holding::{Event, Holding};
use fault::refusal::Refusal;
use fault::report::Fault;
use memory::Memory;
use plan::chart::Question;

fn is_short(holding: Holding) -> bool
    ensures { result ≡ is_short holding }
{
    matches!(holding, Holding::Short { .. })
}

impl<M: Memory> Machine<M> {
    // DROP
    pub(crate) fn empty(&mut self, a: u8) -> u32
        ensures { Yields (model M.bytes self.old) (model M.bytes self.new) (Ok result) (drop_rule (core_of self.old) a) }
    {
        self.engine.tell(a, Event::Dropped);
        0
    }

    // PUSH
    pub(crate) fn push(&mut self, a: u8) -> Result<u32, Fault>
        ensures { Yields (model M.bytes self.old) (model M.bytes self.new) result (push_rule (core_of self.old) a) }
    {
        self.demand(Refusal::StackFull, !self.engine.stack.is_full())?;
        let held = self.engine.registers.get(a);
        self.engine.push(held);
        Ok(0)
    }

    // POP
    pub(crate) fn pop(&mut self, a: u8) -> Result<u32, Fault>
        ensures { Yields (model M.bytes self.old) (model M.bytes self.new) result (pop_rule (core_of self.old) a) }
    {
        self.demand(
            Refusal::StackEmpty,
            self.engine.floor < self.engine.stack.len(),
        )?;
        let top = self.engine.pop();
        self.engine.tell(a, Event::Took(top));
        Ok(0)
    }

    // KEEP
    pub(crate) fn keep(&mut self, a: u8, at: usize) -> Result<u32, Fault>
        ensures { Yields (model M.bytes self.old) (model M.bytes self.new) result (keep_rule (plan_of self.old) (core_of self.old) a at) }
    {
        self.slot_check(Question::Keep, at)?;
        let held = self.engine.registers.get(a);
        self.demand(Refusal::ShortLife, !is_short(held))?;
        if let Some(slot) = self.plan.slot_at(at) {
            self.slots[slot] = held;
        }
        Ok(0)
    }

    fn content(&self, at: usize) -> Holding
        ensures { result ≡ content (core_of self.now) (slot_at (plan_of self.now) at) }
    {
        self.plan
            .slot_at(at)
            .and_then(|slot| self.slots.get(slot).copied())
            .unwrap_or_default()
    }

    // FETCH
    pub(crate) fn fetch(&mut self, a: u8, at: usize) -> Result<u32, Fault>
        ensures { Yields (model M.bytes self.old) (model M.bytes self.new) result (fetch_rule (plan_of self.old) (core_of self.old) a at) }
    {
        self.slot_check(Question::Fetch, at)?;
        let content = self.content(at);
        self.engine.tell(a, Event::Took(content));
        Ok(0)
    }
}
