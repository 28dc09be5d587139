ghost use Rattle.std.specs.Prelude.{◌≡◌, ◌-◌, ◌<◌, [], ◌∷◌, ◌++◌, length, take, slice_index, slice_index_or};
ghost use Rattle.capability.specs.Holdings.{empty};
ghost use Rattle.machine.specs.Engines.{engine_of};
ghost use Rattle.machine.specs.Rules.{called_engine, returned_engine};
ghost use Rattle.machine.specs.State.{moved_engine, stacked_engine, started, told_engine, valued_engine};

use super::Engine;
use crate::frame::Frame;
use arrayvec::ArrayVec;
use capability::holding::{Event, Holding};
use capability::registers::Registers;

impl Engine {
    pub(crate) fn new() -> Engine
        ensures { engine_of result ≡ started.engine }
    {
        Engine {
            place: 0,
            values: [0; 8],
            registers: Registers::new(),
            frames: ArrayVec::new(),
            stack: ArrayVec::new(),
            floor: 0,
        }
    }

    pub(crate) fn value(&self, register: u8) -> u32
        ensures { result ≡ slice_index self.now.values register }
    {
        self.values
            .get(usize::from(register))
            .copied()
            .unwrap_or_default()
    }

    pub(crate) fn set_value(&mut self, register: u8, value: u32)
        ensures { engine_of self.new ≡ valued_engine register value (engine_of self.old) }
    {
        let register = usize::from(register);
        if register < self.values.len() {
            // Kept: tried with `get_mut`, after which a proof knows the length and no element, so the proof did not close.
            self.values[register] = value;
        }
    }

    pub(crate) fn move_to(&mut self, place: usize)
        ensures { engine_of self.new ≡ moved_engine place (engine_of self.old) }
    {
        self.place = place;
    }

    // Something happens to one capability register.
    pub(crate) fn tell(&mut self, register: u8, event: Event)
        ensures { engine_of self.new ≡ told_engine register event (engine_of self.old) }
    {
        self.registers.tell(register, event);
    }

    // CALL's part: a frame more, and the floor at the height.
    pub(crate) fn enter(&mut self, to: usize)
        requires room { length self.old.frames.items < 32 }
        requires near { self.old.place < 32768 }
        ensures { engine_of self.new ≡ called_engine to (engine_of self.old) }
    {
        self.frames.push(Frame {
            place: self.place + 4,
            floor: self.floor,
        });
        self.floor = self.stack.len();
        self.place = to;
    }

    // RETURN's part: the stack is cut to the floor, and the newest frame goes.
    pub(crate) fn leave(&mut self)
        requires { 0 < length self.old.frames.items }
        ensures { engine_of self.new ≡ returned_engine (engine_of self.old) }
    {
        let frame = self.frames.pop().unwrap();
        self.stack.truncate(self.floor);
        self.floor = frame.floor;
        self.place = frame.place;
        self.registers.tell_all(Event::Returned(self.frames.len()));
    }

    pub(crate) fn push(&mut self, holding: Holding)
        requires { length self.old.stack.items < 64 }
        ensures { engine_of self.new ≡ stacked_engine ((engine_of self.old).stack ++ holding ∷ []) (engine_of self.old) }
    {
        self.stack.push(holding);
    }

    pub(crate) fn pop(&mut self) -> Holding
        requires { self.old.floor < length self.old.stack.items }
        ensures top { result ≡ slice_index_or (engine_of self.old).stack (length (engine_of self.old).stack - 1) empty }
        ensures rest { engine_of self.new ≡ stacked_engine (take (length (engine_of self.old).stack - 1) (engine_of self.old).stack) (engine_of self.old) }
    {
        self.stack.pop().unwrap()
    }
}
