ghost use Rattle.std.specs.Prelude.{◌≡◌, ◌+◌, true};
ghost use Rattle.instruction.specs.Decoding.{fitting};
ghost use Rattle.machine.specs.Actions.{Does, said, stepped};
ghost use Rattle.machine.specs.Model.{core_of, model, plan_of};
ghost use Rattle.machine.specs.Rules.{has_room, obey_rule, right_of, row, wanted};
ghost use Rattle.machine.specs.State.{value};
ghost use Rattle.machine.specs.Telling.{Refuses};

use super::{LAST_PLACE, Machine};
use crate::answer::Done;
use capability::right::Right;
use fault::level::Level;
use fault::refusal::Refusal;
use fault::report::Fault;
use instruction::decode::{Decoded, decode};
use instruction::op::Op;
use memory::Memory;
use plan::records::PAGE;

impl<M: Memory> Machine<M> {
    // Obeys one record, which may be any bytes. A refusal leaves everything as it was, and its fault tells the truth.
    pub fn obey(&mut self, word: &[u8]) -> Result<Done, Fault>
        ensures after { model M.bytes self.new ≡ stepped (model M.bytes self.old) (obey_rule (plan_of self.old) (core_of self.old) word.now) }
        ensures answer { result ≡ said (model M.bytes self.old) (obey_rule (plan_of self.old) (core_of self.old) word.now) }
        ensures refuses { Refuses (model M.bytes self.old) (model M.bytes self.new) result }
    {
        let d = decode(word).map_err(|refusal| self.bare(refusal))?;
        self.demand(Refusal::PageEnd, self.has_room(d.op, d.a))?;
        self.carry_out(d)
    }

    // Whether the instruction may stand at this place: the page's last place has no next one.
    fn has_room(&self, op: Op, a: u8) -> bool
        ensures { result ≡ has_room (core_of self.now) op a }
    {
        self.engine.place % PAGE != LAST_PLACE
            || match op {
                Op::Jump | Op::Return => true,
                Op::Branch => self.engine.value(a) == 0,
                _ => false,
            }
    }

    // The address that a record names: a value register plus a number, without wrapping.
    // Kept: `as`, in this file: from u32 to usize, between which Rust has no `From`, and of the life or the register of a
    // v that fits, where with try_from a branch would stand that never runs.
    fn at(&self, b: u8, v: u32) -> usize
        ensures { result ≡ value (core_of self.now) b + v }
    {
        self.engine.value(b) as usize + v as usize
    }

    // The right that a MAKE or CUT asks for.
    fn asked(&self, d: Decoded) -> Right
        ensures { result ≡ right_of (value (core_of self.now) d.b) (value (core_of self.now) d.c) (wanted d.v) }
    {
        Right {
            base: self.engine.value(d.b) as usize,
            size: self.engine.value(d.c) as usize,
            level: Level::try_from(d.v % 4).unwrap_or_default(),
        }
    }

    fn carry_out(&mut self, d: Decoded) -> Result<Done, Fault>
        requires fitting { fitting d ≡ true }
        requires room { has_room (core_of self.old) d.op d.a ≡ true }
        ensures { Does (model M.bytes self.old) (model M.bytes self.new) result (row (plan_of self.old) (core_of self.old) d.op d.a d.b d.c d.v) }
    {
        // Kept: a match on the instruction; closures or a table of functions would say no more, behind a `dyn`.
        let value = match d.op {
            Op::Set => self.set(d.a, d.v),
            Op::Add => self.add(d.a, d.b),
            Op::Load => self.load(d.a, self.at(d.b, d.v))?,
            Op::Store => self.store(d.a, self.at(d.b, d.v))?,
            Op::Jump => return self.jump(d.v as usize),
            Op::Call => return self.call(d.v as usize),
            Op::Return => return self.leave(),
            Op::Branch if self.engine.value(d.a) == 0 => return self.branch(d.v),
            Op::Branch => 0,
            Op::Make => self.make(d.a, self.asked(d), (d.v / 4) as u8)?,
            Op::Cut => self.cut(d.a, self.asked(d), (d.v / 4) as u8)?,
            Op::Drop => self.empty(d.a),
            Op::Push => self.push(d.a)?,
            Op::Pop => self.pop(d.a)?,
            Op::Keep => self.keep(d.a, self.at(d.b, d.v))?,
            Op::Fetch => self.fetch(d.a, self.at(d.b, d.v))?,
            Op::Revoke => self.revoke(d.a)?,
            Op::Panel => self.show(d.a)?,
        };
        Ok(self.go_on(value))
    }
}
