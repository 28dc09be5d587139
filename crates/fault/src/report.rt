ghost use Rattle.std.specs.Prelude.{◌≡◌, if◌then◌else◌, Ok, Err};
ghost use Rattle.fault.specs.Faults.{access_fault, bare_fault, fault_of, memory_fault, placed_at};

use crate::level::Level;
use crate::refusal::{Layer, Refusal};
use std::error::Error;

// What an access asked for: the address, the tag of its page, and the level that was found there.
#[derive(Clone, Copy, PartialEq, Eq, Debug)]
pub struct Access {
    pub address: usize,
    pub tag: u8,
    pub level: Level,
}

// An address that a memory of this size does not have.
#[derive(Clone, Copy, PartialEq, Eq, Debug)]
pub struct Outside {
    pub address: usize,
    pub size: usize,
}

#[derive(Clone, Copy, PartialEq, Eq, Debug)]
pub enum Cause {
    Access(Access),
    Memory(Outside),
    Bare,
}

// A refusal as it is told. The place is the machine's; drafts, texts and a memory called directly tell 0.
#[derive(Clone, Copy, PartialEq, Eq, Debug)]
pub struct Fault {
    pub refusal: Refusal,
    pub layer: Layer,
    pub place: usize,
    pub cause: Cause,
}

impl Fault {
    fn new(refusal: Refusal, place: usize, cause: Cause) -> Fault
        ensures { result ≡ fault_of refusal place cause }
    {
        Fault {
            refusal,
            layer: refusal.layer(),
            place,
            cause,
        }
    }

    // A refusal that tells nothing more.
    pub fn bare(refusal: Refusal, place: usize) -> Fault
        ensures { result ≡ bare_fault refusal place }
    {
        Fault::new(refusal, place, Cause::Bare)
    }

    // A refusal of an access, with what it asked for.
    pub fn access(refusal: Refusal, place: usize, access: Access) -> Fault
        ensures { result ≡ access_fault refusal place access }
    {
        Fault::new(refusal, place, Cause::Access(access))
    }

    // The memory's own refusal.
    pub fn memory(place: usize, outside: Outside) -> Fault
        ensures { result ≡ memory_fault place outside }
    {
        Fault::new(Refusal::OutsideMemory, place, Cause::Memory(outside))
    }

    // Passes, or refuses with a fault that tells nothing more.
    pub fn demand(test: bool, refusal: Refusal, place: usize) -> Result<(), Fault>
        ensures { result ≡ (if test then Ok tt else Err (bare_fault refusal place)) }
    {
        if test {
            Ok(())
        } else {
            Err(Fault::bare(refusal, place))
        }
    }

    // The same fault, told at another place.
    pub fn at(self, place: usize) -> Fault
        ensures { result ≡ placed_at place self }
    {
        Fault { place, ..self }
    }
}

impl Error for Fault {}
