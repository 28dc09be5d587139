ghost use Rattle.std.specs.Prelude.{◌≡◌};
ghost use Rattle.machine.specs.Actions.{told_at};
ghost use Rattle.machine.specs.Model.{core_of, model, plan_of};
ghost use Rattle.machine.specs.State.{place_of};
ghost use Rattle.memory.specs.Meaning.{read_of, write_of, wrote};

use super::Machine;
use fault::report::Fault;
use memory::Memory;

// The only functions that touch the memory.
impl<M: Memory> Machine<M> {
    pub(crate) fn read_byte(&self, address: usize) -> Result<u8, Fault>
        ensures { result ≡ told_at (place_of (core_of self.now)) (read_of (M.bytes self.now.memory) address) }
    {
        self.memory
            .read(address)
            .map_err(|fault| fault.at(self.engine.place))
    }

    pub(crate) fn write_byte(&mut self, address: usize, byte: u8) -> Result<(), Fault>
        ensures answer { result ≡ told_at (place_of (core_of self.old)) (write_of (M.bytes self.old.memory) address) }
        ensures after { model M.bytes self.new ≡ record { plan = plan_of self.old; core = core_of self.old; bytes = wrote result (M.bytes self.old.memory) address byte } }
    {
        self.memory
            .write(address, byte)
            .map_err(|fault| fault.at(self.engine.place))
    }
}
