ghost use Rattle.std.specs.Prelude.{◌≡◌, ◌%◌, ◌<◌, ◌≢◌};
ghost use Rattle.machine.specs.Actions.{Does};
ghost use Rattle.machine.specs.Model.{core_of, model, plan_of};
ghost use Rattle.machine.specs.Rules.{call_rule, jump_rule, landing, return_rule, target};
ghost use Rattle.machine.specs.State.{place_of};

use super::Machine;
use crate::answer::Done;
use fault::refusal::Refusal;
use fault::report::Fault;
use memory::Memory;

impl<M: Memory> Machine<M> {
    // JUMP
    pub(crate) fn jump(&mut self, to: usize) -> Result<Done, Fault>
        ensures { Does (model M.bytes self.old) (model M.bytes self.new) result (jump_rule (plan_of self.old) (core_of self.old) to) }
    {
        self.entrance(to)?;
        self.engine.move_to(to);
        Ok(self.done(0))
    }

    // CALL
    pub(crate) fn call(&mut self, to: usize) -> Result<Done, Fault>
        requires room { place_of (core_of self.old) % 256 ≢ 252 }
        ensures { Does (model M.bytes self.old) (model M.bytes self.new) result (call_rule (plan_of self.old) (core_of self.old) to) }
    {
        self.entrance(to)?;
        self.demand(Refusal::StackFull, !self.engine.frames.is_full())?;
        self.engine.enter(to);
        Ok(self.done(0))
    }

    // RETURN
    pub(crate) fn leave(&mut self) -> Result<Done, Fault>
        ensures { Does (model M.bytes self.old) (model M.bytes self.new) result (return_rule (core_of self.old)) }
    {
        self.demand(Refusal::StackEmpty, !self.engine.frames.is_empty())?;
        self.engine.leave();
        Ok(self.done(0))
    }

    // BRANCH at 0
    pub(crate) fn branch(&mut self, v: u32) -> Result<Done, Fault>
        ensures { Does (model M.bytes self.old) (model M.bytes self.new) result (landing (plan_of self.old) (core_of self.old) (target (place_of (core_of self.old)) v)) }
    {
        match displaced(self.engine.place, v) {
            Some(to) => self.jump(to),
            None => Err(self.bare(Refusal::AddressRange)),
        }
    }
}

// The place 4d further on, where v is d in signed 32-bit two's complement; below 0 there is none.
pub(crate) fn displaced(place: usize, v: u32) -> Option<usize>
    requires { place < 32768 }
    ensures { result ≡ target place v }
{
    // Kept: `as` of a place, which is below 32,768, since with try_from a branch would stand that never runs.
    usize::try_from(place as i64 + 4 * i64::from(v.cast_signed())).ok()
}
