ghost use Rattle.std.specs.Prelude.{◌≡◌, ℕ, Ok, Some};
ghost use Rattle.fault.specs.Levels.{level_named};
ghost use Rattle.machine.specs.Actions.{said, stepped};
ghost use Rattle.machine.specs.Host.{counter_at, deposit_rule, kind_check, lend_answer, lend_check, lend_core, lent, recall_rule};
ghost use Rattle.machine.specs.Model.{core_of, model, plan_of};
ghost use Rattle.machine.specs.Runs.{Dead};
ghost use Rattle.machine.specs.Telling.{Refuses};

use super::Machine;
use crate::answer::{Done, Slip};
use capability::counter::Counter;
use capability::holding::{Event, Holding, reading_of};
use capability::right::Right;
use fault::level::Level;
use fault::refusal::Refusal;
use fault::report::Fault;
use memory::Memory;

impl<M: Memory> Machine<M> {
    // The host writes one byte.
    pub fn deposit(&mut self, address: usize, byte: u8) -> Result<Done, Fault>
        ensures after { model M.bytes self.new ≡ stepped (model M.bytes self.old) (deposit_rule (plan_of self.old) (core_of self.old) address byte) }
        ensures answer { result ≡ said (model M.bytes self.old) (deposit_rule (plan_of self.old) (core_of self.old) address byte) }
        ensures refuses { Refuses (model M.bytes self.old) (model M.bytes self.new) result }
    {
        self.addressed(address)?;
        self.kind_check(address)?;
        self.write_byte(address, byte)?;
        Ok(self.done(0))
    }

    fn kind_check(&self, address: usize) -> Result<(), Fault>
        ensures { result ≡ kind_check (plan_of self.now) (core_of self.now) address }
    {
        if self.plan.page_at(address).stores() {
            return Err(self.denied(Refusal::WrongPageKind, address, Level::Nothing));
        }
        Ok(())
    }

    // The host lends a capability to a register, on one of its counters. The slip has to be handed to `recall`.
    // Kept: five numbers, since a public call takes what the host writes and refuses what is out of range.
    pub fn lend(
        &mut self,
        counter: u8,
        register: u8,
        base: usize,
        size: usize,
        level: u32,
    ) -> Result<Slip, Fault>
        ensures answer { result ≡ lend_answer (lend_check (plan_of self.old) (core_of self.old) counter register base size level) (core_of self.old) counter }
        ensures after { model M.bytes self.new ≡ record { plan = plan_of self.old; core = lend_core (lend_check (plan_of self.old) (core_of self.old) counter register base size level) (core_of self.old) (lent (core_of self.old) counter register base size level); bytes = M.bytes self.old.memory } }
    {
        let Ok(level) = Level::try_from(level) else {
            return Err(self.bare(Refusal::FieldRange));
        };
        let right = Right { base, size, level };
        self.lend_check(counter, register, right)?;
        let reading = reading_of(&self.counters, counter);
        let loan = Holding::Counted {
            right,
            counter,
            reading,
        };
        self.counters[usize::from(counter)] = Counter { reading, out: true };
        self.engine.tell(register, Event::Took(loan));
        Ok(Slip { counter, reading })
    }

    // What a loan needs, whatever number names its level.
    fn lend_check(&self, counter: u8, register: u8, right: Right) -> Result<(), Fault>
        ensures { (level : ℕ) → level_named level ≡ Some right.level → result ≡ lend_check (plan_of self.now) (core_of self.now) counter register right.base right.size level }
    {
        let known = (1..=16).contains(&counter) && register < 8;
        self.demand(Refusal::FieldRange, known)?;
        self.span_check(right)?;
        self.owned_by(counter, 0)?;
        self.demand(Refusal::CounterOut, !self.is_out(counter))?;
        self.unspent(counter)
    }

    fn is_out(&self, counter: u8) -> bool
        ensures { result ≡ (counter_at (core_of self.now) counter).out }
    {
        self.counters
            .get(usize::from(counter))
            .is_some_and(|counter| counter.out)
    }

    // The host takes a loan back: 1 if the slip's counter is out at its reading, else 0 and nothing changes.
    // What was lent on the slip, and every copy of it, then grants nothing, whatever happens next.
    pub fn recall(&mut self, slip: Slip) -> Done
        ensures after { model M.bytes self.new ≡ stepped (model M.bytes self.old) (recall_rule (core_of self.old) slip.counter slip.reading) }
        ensures answer { Ok result ≡ said (model M.bytes self.old) (recall_rule (core_of self.old) slip.counter slip.reading) }
        ensures dead { result.value ≡ 1 → Dead (model M.bytes self.new) slip.counter slip.reading }
    {
        let Slip { counter, reading } = slip;
        if !(1..=16).contains(&counter) {
            return self.done(0);
        }
        let index = usize::from(counter);
        let old = self.counters[index];
        if !old.out || old.reading != reading {
            return self.done(0);
        }
        self.counters[index] = Counter {
            reading: reading + 1,
            out: false,
        };
        self.done(1)
    }
}
