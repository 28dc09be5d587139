ghost use Rattle.std.specs.Prelude.{◌≡◌, length};
ghost use Rattle.machine.specs.Engines.{engine_of};
ghost use Rattle.machine.specs.Sound.{Fine, Grounded, GroundedAll, Lasting, Settled};
ghost use Rattle.plan.specs.Model.{planned};

use crate::engine::Engine;
use capability::counter::Counter;
use capability::holding::Holding;
use plan::tables::Plan;

pub mod checks;
pub mod flow;
pub mod grants;
pub mod holdings;
pub mod host;
pub mod memories;
pub mod obey;
pub mod seal;
pub mod values;

// The last place of a page, counted from its first address.
pub(crate) const LAST_PLACE: usize = 252;

// The greatest reading of a counter.
pub(crate) const LAST_READING: u32 = 999_999;

// A machine over a memory of any make. Slots stand eight to an S page, in the order in which those were
// planned; counters stand under their numbers, and place 0 is unused.
// Kept: clauses name a machine's plan and core one after the other; rules are given both and no bytes, which one
// definition alone touches, and a record of the two would be a third form of the state.
#[derive(Drop)]
pub struct Machine<M> {
    pub(crate) engine: Engine,
    pub(crate) slots: [Holding; 64],
    pub(crate) counters: [Counter; 17],
    pub(crate) panel: u32,
    pub(crate) plan: Plan,
    pub(crate) memory: M,
    ghost slots64: { length slots ≡ 64 },
    ghost counters17: { length counters ≡ 17 },
    ghost grounded: { Grounded (planned plan) engine.place },
    ghost returns: { GroundedAll (planned plan) (engine_of engine).frames },
    ghost registers_fine: { Fine counters (engine_of engine).registers },
    ghost stack_fine: { Fine counters (engine_of engine).stack },
    ghost slots_fine: { Fine counters slots },
    ghost slots_last: { Lasting slots },
    ghost settled: { Settled (planned plan) counters },
}
