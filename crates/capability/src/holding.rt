ghost use Rattle.std.specs.Prelude.{◌≡◌};
ghost use Rattle.capability.specs.Holdings.{after, granted, level_over, reading_of};

use crate::counter::Counter;
use crate::right::{Right, Span};
use fault::level::Level;

// What a register, a stack entry or a slot holds: nothing, or a capability with its life. A short one keeps
// the depth at its making, a counted one its counter and the reading at its making.
// Kept: three cases in one enum, since one match has to take a register's own state and the event together and
// update the register in place, as `happen` does.
#[derive(Clone, Copy, PartialEq, Eq, Debug, Default)]
pub enum Holding {
    #[default]
    Empty,
    Short {
        right: Right,
        depth: usize,
    },
    Counted {
        right: Right,
        counter: u8,
        reading: u32,
    },
}

// What happens to a register.
#[derive(Clone, Copy, PartialEq, Eq, Debug)]
pub enum Event {
    // A RETURN to a depth.
    Returned(usize),
    // It is emptied.
    Dropped,
    // It takes what was made, cut, popped, fetched or lent.
    Took(Holding),
}

impl Holding {
    // What is held and what happens decide together what is held next.
    pub fn happen(&mut self, event: Event)
        ensures { self.new ≡ after self.old event }
    {
        match (event, *self) {
            (Event::Returned(to), Holding::Short { depth, .. }) if to < depth => {
                *self = Holding::Empty;
            }
            (Event::Returned(_), _) => {}
            (Event::Dropped, _) => *self = Holding::Empty,
            (Event::Took(holding), _) => *self = holding,
        }
    }

    // What the capability grants now: a counted one, only while its counter shows its reading.
    pub fn granted(self, counters: &[Counter]) -> Option<Right>
        ensures { result ≡ granted counters.now self }
    {
        match self {
            Holding::Empty => None,
            Holding::Short { right, .. } => Some(right),
            Holding::Counted {
                right,
                counter,
                reading,
            } => (reading_of(counters, counter) == reading).then_some(right),
        }
    }

    // The level that it gives over all bytes of a span.
    pub fn level_over(self, counters: &[Counter], asked: Span) -> Level
        ensures { result ≡ level_over counters.now self asked.base asked.size }
    {
        self.granted(counters)
            .filter(|right| right.covers(asked))
            .map_or(Level::Nothing, |right| right.level)
    }
}

// The reading of a counter; a counter that there is not shows 0.
pub fn reading_of(counters: &[Counter], counter: u8) -> u32
    ensures { result ≡ reading_of counters.now counter }
{
    counters
        .get(usize::from(counter))
        .map_or(0, |counter| counter.reading)
}
