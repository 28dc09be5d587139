ghost use Rattle.std.specs.Prelude.{◌≡◌, ◌+◌, ◌<◌, ◌≤◌, true, IfSome};
ghost use Rattle.capability.specs.Holdings.{spans};
ghost use Rattle.fault.specs.Levels.{rank_of};
ghost use Rattle.machine.specs.Actions.{Yields};
ghost use Rattle.machine.specs.Model.{core_of, model, plan_of};
ghost use Rattle.machine.specs.Rules.{cut, cut_rule, life_check, list_check, lowest_below, made, make_check, make_rule, part_check, revoke_rule};

use super::Machine;
use capability::counter::Counter;
use capability::holding::{Event, Holding, reading_of};
use capability::right::Right;
use fault::level::Level;
use fault::refusal::Refusal;
use fault::report::Fault;
use memory::Memory;
use plan::records::PAGE;

// A part of what a capability grants, with the same life.
fn cut(right: Right, held: Holding) -> Holding
    ensures { result ≡ cut right held }
{
    match held {
        Holding::Empty => Holding::Empty,
        Holding::Short { depth, .. } => Holding::Short { right, depth },
        Holding::Counted {
            counter,
            reading,
            ..
        } => Holding::Counted {
            right,
            counter,
            reading,
        },
    }
}

impl<M: Memory> Machine<M> {
    // MAKE
    pub(crate) fn make(&mut self, a: u8, right: Right, life: u8) -> Result<u32, Fault>
        requires granting { 0 < rank_of right.level }
        requires lives { life ≤ 16 }
        ensures { Yields (model M.bytes self.old) (model M.bytes self.new) result (make_rule (plan_of self.old) (core_of self.old) a right life) }
    {
        self.make_check(right, life)?;
        let made = self.made(right, life);
        self.engine.tell(a, Event::Took(made));
        Ok(0)
    }

    fn make_check(&self, right: Right, life: u8) -> Result<(), Fault>
        ensures { result ≡ make_check (plan_of self.now) (core_of self.now) right life }
    {
        self.span_check(right)?;
        self.life_check(life)?;
        self.list_check(right)
    }

    fn life_check(&self, life: u8) -> Result<(), Fault>
        ensures { result ≡ life_check (plan_of self.now) (core_of self.now) life }
    {
        if life == 0 {
            return Ok(());
        }
        self.owned_by(life, self.tag())?;
        self.unspent(life)
    }

    // Each page that the span touches, judged by the current tag's list.
    fn list_check(&self, right: Right) -> Result<(), Fault>
        requires { spans right.base right.size ≡ true }
        ensures { result ≡ list_check (plan_of self.now) (core_of self.now) right }
    {
        let first = right.base / PAGE;
        let count = (right.base + right.size - 1) / PAGE + 1 - first;
        let tag = self.tag();
        match self.lowest_below(tag, right.level, first, count) {
            None => Ok(()),
            Some(page) => {
                let start = PAGE * page;
                let level = self.listed(tag, start);
                Err(self.denied(Refusal::LevelTooLow, right.base.max(start), level))
            }
        }
    }

    // The lowest of some pages for which a tag's list gives less than a level.
    fn lowest_below(&self, tag: u8, level: Level, first: usize, count: usize) -> Option<usize>
        requires { first + count ≤ 128 }
        ensures value { result ≡ lowest_below (plan_of self.now) tag level first count }
        ensures within { IfSome result (λ k. k < 128) }
    {
        (first..first + count).find(|page| self.listed(tag, PAGE * page) < level)
    }

    // A new capability: short, or counted at the counter's reading.
    fn made(&self, right: Right, life: u8) -> Holding
        ensures { result ≡ made (core_of self.now) right life }
    {
        if life == 0 {
            Holding::Short {
                right,
                depth: self.engine.frames.len(),
            }
        } else {
            let reading = reading_of(&self.counters, life);
            Holding::Counted {
                right,
                counter: life,
                reading,
            }
        }
    }

    // CUT
    pub(crate) fn cut(&mut self, a: u8, right: Right, source: u8) -> Result<u32, Fault>
        requires granting { 0 < rank_of right.level }
        ensures { Yields (model M.bytes self.old) (model M.bytes self.new) result (cut_rule (plan_of self.old) (core_of self.old) a right source) }
    {
        let held = self.engine.registers.get(source);
        let whole = held
            .granted(&self.counters)
            .ok_or_else(|| self.bare(Refusal::DeadSource))?;
        self.span_check(right)?;
        self.part_check(right, whole)?;
        self.engine.tell(a, Event::Took(cut(right, held)));
        Ok(0)
    }

    fn part_check(&self, part: Right, whole: Right) -> Result<(), Fault>
        requires spans { spans part.base part.size ≡ true }
        ensures { result ≡ part_check (plan_of self.now) (core_of self.now) part whole }
    {
        if whole.covers(part.span()) && part.level <= whole.level {
            Ok(())
        } else {
            Err(self.denied(Refusal::LevelTooLow, part.base, whole.level))
        }
    }

    // REVOKE
    pub(crate) fn revoke(&mut self, counter: u8) -> Result<u32, Fault>
        requires counter { counter ≤ 16 }
        ensures { Yields (model M.bytes self.old) (model M.bytes self.new) result (revoke_rule (plan_of self.old) (core_of self.old) counter) }
    {
        self.owned_by(counter, self.tag())?;
        self.unspent(counter)?;
        let index = usize::from(counter);
        let old = self.counters[index];
        let reading = old.reading + 1;
        self.counters[index] = Counter { reading, ..old };
        Ok(reading)
    }
}
