#![tactic(auto)]

ghost use Rattle.std.specs.Prelude.{◌≡◌, ℕ, ◌≤◌, List, length, if◌then◌else◌, nat_lt};
ghost use Rattle.memory.specs.Meaning.{read_of, write_of, wrote, outside};

use fault::report::{Fault, Outside};

pub mod area;
pub mod block;
pub mod flat;
pub mod joint;
pub mod nibble;
#[cfg(test)]
mod tests;

// A memory means a list of bytes, and its size is the list's length.
pub trait Memory {
    // The longest list of this make.
    const MOST: usize;

    ghost most: { ℕ };

    ghost bytes: { Self → List ℕ };

    ghost within: { (m : Self) → length (bytes m) ≤ most };

    // `MOST`, for generic code. Clauses know it as `most`.
    // Kept: `ghost MOST`, which would tie the constant, is refused in an `impl` with a lifetime, as `Area`'s.
    fn longest() -> usize
        ensures { result ≡ most };

    fn size(&self) -> usize
        ensures { result ≡ length (bytes self.now) };

    // The byte at the address, or the refusal 6.
    fn read(&self, address: usize) -> Result<u8, Fault>
        ensures { result ≡ read_of (bytes self.now) address };

    // Replaces the byte at the address alone; a refused write changes nothing.
    fn write(&mut self, address: usize, byte: u8) -> Result<(), Fault>
        ensures answer { result ≡ write_of (bytes self.old) address }
        ensures after { bytes self.new ≡ wrote result (bytes self.old) address byte };
}

// The refusal of an address by a memory of this size.
fn outside(address: usize, size: usize) -> Fault
    ensures { result ≡ outside address size }
{
    Fault::memory(0, Outside { address, size })
}

// Refuses an address that a memory of this size does not have.
fn check(address: usize, size: usize) -> Result<(), Fault>
    ensures { result ≡ (if nat_lt address size then Ok tt else Err (outside address size)) }
{
    if address < size {
        Ok(())
    } else {
        Err(outside(address, size))
    }
}
