ghost use Rattle.std.specs.Prelude.{◌≡◌, length, map, replicate, slice_index_or, slice_set};
ghost use Rattle.capability.specs.Holdings.{after, empty, raised};

use crate::counter::Counter;
use crate::holding::{Event, Holding};
use crate::right::Span;
use fault::level::Level;

// How many capability registers there are.
pub const COUNT: usize = 8;

// The eight capability registers.
#[derive(Clone, Copy, PartialEq, Eq, Debug)]
pub struct Registers {
    pub held: [Holding; COUNT],
    ghost eight: { length held ≡ 8 },
}

impl Registers {
    pub fn new() -> Registers
        ensures { result.held ≡ replicate 8 empty }
    {
        Registers {
            held: [Holding::Empty; COUNT],
        }
    }

    // What a register holds; beyond the eight there is nothing.
    pub fn get(&self, at: u8) -> Holding
        ensures { result ≡ slice_index_or self.now.held at empty }
    {
        self.held.get(usize::from(at)).copied().unwrap_or_default()
    }

    // Something happens to one register, and to no other.
    pub fn tell(&mut self, at: u8, event: Event)
        ensures { self.new.held ≡ slice_set self.old.held at (after (slice_index_or self.old.held at empty) event) }
    {
        let index = usize::from(at);
        if index < COUNT {
            // Kept: tried with `get_mut`, whose contract does not say what the slice ends as, so the proof did not close.
            self.held[index].happen(event);
        }
    }

    // Something happens to every register.
    pub fn tell_all(&mut self, event: Event)
        ensures { self.new.held ≡ map (λ r. after r event) self.old.held }
    {
        for held in &mut self.held {
            held.happen(event);
        }
    }

    // A level, raised to the greatest that a live register gives over a span.
    pub fn raise(&self, level: Level, counters: &[Counter], asked: Span) -> Level
        ensures { result ≡ raised counters.now asked.base asked.size level self.now.held }
    {
        self.held.iter().fold(
            level,
            |level, held| level.higher(held.level_over(counters, asked)),
        )
    }
}
