ghost use Rattle.std.specs.Prelude.{◌≡◌};
ghost use Rattle.machine.specs.Model.{core_of, model};
ghost use Rattle.machine.specs.State.{started};
ghost use Rattle.plan.specs.Model.{drafted};

use super::Machine;
use crate::engine::Engine;
use capability::counter::Counter;
use capability::holding::Holding;
use memory::Memory;
use plan::draft::Draft;

impl<M: Memory> Machine<M> {
    // Joins a draft and a memory into a machine at its start. The draft is used up.
    pub fn seal(draft: Draft, memory: M) -> Machine<M>
        ensures { model M.bytes result ≡ record { plan = (drafted draft).plan; core = started; bytes = M.bytes memory } }
    {
        Machine {
            engine: Engine::new(),
            slots: [Holding::Empty; 64],
            counters: [Counter::default(); 17],
            panel: 0,
            plan: draft.into_plan(),
            memory,
        }
    }

    // The memory, with what was written in it.
    pub fn into_memory(self) -> M
        ensures { result ≡ self.memory }
    {
        self.memory
    }

    // The number that the panel shows.
    pub fn panel(&self) -> u32
        ensures { result ≡ (core_of self.now).panel }
    {
        self.panel
    }
}
