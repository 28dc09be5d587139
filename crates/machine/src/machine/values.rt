ghost use Rattle.std.specs.Prelude.{◌≡◌, ◌+◌, ◌%◌, ◌≢◌};
ghost use Rattle.machine.specs.Actions.{Yields, gone_on};
ghost use Rattle.machine.specs.Model.{core_of, model, plan_of};
ghost use Rattle.machine.specs.Rules.{add_rule, load_rule, panel_rule, set_rule, store_rule};
ghost use Rattle.machine.specs.State.{place_of};

use super::Machine;
use crate::answer::Done;
use fault::refusal::Refusal;
use fault::report::Fault;
use memory::Memory;
use plan::chart::Question;

impl<M: Memory> Machine<M> {
    // What is answered at the present place.
    pub(crate) fn done(&self, value: u32) -> Done
        ensures { result ≡ record { place = place_of (core_of self.now); value = value } }
    {
        Done {
            place: self.engine.place,
            value,
        }
    }

    // The place grows by 4, and a value is answered.
    pub(crate) fn go_on(&mut self, value: u32) -> Done
        requires room { place_of (core_of self.old) % 256 ≢ 252 }
        ensures after { model M.bytes self.new ≡ gone_on (model M.bytes self.old) }
        ensures answer { result ≡ record { place = place_of (core_of self.old) + 4; value = value } }
    {
        let place = self.engine.place + 4;
        self.engine.move_to(place);
        self.done(value)
    }

    // SET
    pub(crate) fn set(&mut self, a: u8, v: u32) -> u32
        ensures { Yields (model M.bytes self.old) (model M.bytes self.new) (Ok result) (set_rule (core_of self.old) a v) }
    {
        self.engine.set_value(a, v);
        v
    }

    // ADD
    pub(crate) fn add(&mut self, a: u8, b: u8) -> u32
        ensures { Yields (model M.bytes self.old) (model M.bytes self.new) (Ok result) (add_rule (core_of self.old) a b) }
    {
        let sum = self.engine.value(a).wrapping_add(self.engine.value(b));
        self.engine.set_value(a, sum);
        sum
    }

    // LOAD
    pub(crate) fn load(&mut self, a: u8, at: usize) -> Result<u32, Fault>
        ensures { Yields (model M.bytes self.old) (model M.bytes self.new) result (load_rule (plan_of self.old) (core_of self.old) a at) }
    {
        self.byte_check(Question::Load, at)?;
        let byte = u32::from(self.read_byte(at)?);
        self.engine.set_value(a, byte);
        Ok(byte)
    }

    // STORE
    pub(crate) fn store(&mut self, a: u8, at: usize) -> Result<u32, Fault>
        ensures { Yields (model M.bytes self.old) (model M.bytes self.new) result (store_rule (plan_of self.old) (core_of self.old) a at) }
    {
        self.byte_check(Question::Store, at)?;
        // Kept: `as` of a remainder below 256, since with try_from a branch would stand that never runs.
        let byte = (self.engine.value(a) % 256) as u8;
        self.write_byte(at, byte)?;
        Ok(0)
    }

    // PANEL
    pub(crate) fn show(&mut self, a: u8) -> Result<u32, Fault>
        ensures { Yields (model M.bytes self.old) (model M.bytes self.new) result (panel_rule (plan_of self.old) (core_of self.old) a) }
    {
        self.demand(
            Refusal::NotPrivileged,
            self.plan.page_at(self.engine.place).privileged(),
        )?;
        let value = self.engine.value(a);
        self.panel = value;
        Ok(value)
    }
}
