use crate::Memory;
use crate::block::store;
use crate::flat::Flat;
use crate::joint::Joint;
use crate::nibble::Nibble;
use fault::report::{Fault, Outside};
use std::test::Fail;

fn outside(address: usize, size: usize) -> Fault {
    Fault::memory(0, Outside { address, size })
}

// An empty memory refuses address 0.
#[test]
fn empty(rt: HostRuntime) {
    let mut area: [u8; 0] = [];
    let mut memory = Flat::new(&mut area);
    assert_eq!(rt; memory.size(), 0);
    assert_eq!(rt; memory.read(0), Err(outside(0, 0)));
    assert_eq!(rt; memory.write(0, 1), Err(outside(0, 0)));
}

// The last byte is there, the next is not, and a refused write changes nothing.
#[test]
fn last_byte(rt: HostRuntime) {
    let mut area = [1, 2, 3];
    let mut memory = Flat::new(&mut area);
    assert_eq!(rt; memory.read(2), Ok(3));
    assert_eq!(rt; memory.write(2, 9), Ok(()));
    assert_eq!(rt; memory.write(3, 7), Err(outside(3, 3)));
    assert_eq!(rt; memory.read(3), Err(outside(3, 3)));
    let back = memory.into_area();
    assert_eq!(rt; back.len(), 3);
    assert!(rt; back[0] == 1 && back[1] == 2 && back[2] == 9);
}

// An odd last area byte is unused; upper halves are ignored on reading and written as 0.
#[test]
fn halves(rt: HostRuntime) {
    let mut area = [0xf5, 0xe4, 0xd3, 0xc2, 0xb1];
    let mut memory = Nibble::new(&mut area);
    assert_eq!(rt; memory.size(), 2);
    assert_eq!(rt; memory.read(0), Ok(0x45));
    assert_eq!(rt; memory.read(1), Ok(0x23));
    assert_eq!(rt; memory.read(2), Err(outside(2, 2)));
    assert_eq!(rt; memory.write(1, 0x6a), Ok(()));
    assert_eq!(rt; memory.read(1), Ok(0x6a));
    let back = memory.into_area();
    assert_eq!(rt; back.len(), 5);
    assert!(rt;
        back[0] == 0xf5 && back[1] == 0xe4 && back[2] == 0x0a && back[3] == 0x06 && back[4] == 0xb1
    );
}

// The second part of a joint begins where the first ends.
#[test]
fn joint_parts(rt: HostRuntime) {
    let mut flat = [1, 2];
    let mut halves = [3, 0, 4, 0];
    let mut memory = Joint::new(Flat::new(&mut flat), Nibble::new(&mut halves));
    assert_eq!(rt; memory.size(), 4);
    assert_eq!(rt; memory.write(1, 12), Ok(()));
    assert_eq!(rt; memory.write(2, 0x13), Ok(()));
    assert_eq!(rt; memory.read(3), Ok(4));
    assert_eq!(rt; memory.read(4), Err(outside(4, 4)));
    let (low, high) = memory.into_parts();
    assert_eq!(rt; low.read(1), Ok(12));
    assert_eq!(rt; high.read(0), Ok(0x13));
}

// Areas longer than the longest list, and the cut of a joint of joints.
#[test]
fn longest(rt: HostRuntime) -> Result<(), Fail> {
    let mut first = vec![in rt.alloc(); 0; 40000]?;
    let mut second = vec![in rt.alloc(); 0; 40000]?;
    let mut third = vec![in rt.alloc(); 0; 40000]?;
    assert_eq!(rt; Flat::new(&mut first).size(), 32768);
    let halves = Nibble::new(&mut second);
    assert_eq!(rt; halves.size(), 16384);
    let mut memory = Joint::new(
        halves,
        Joint::new(Flat::new(&mut first), Flat::new(&mut third)),
    );
    assert_eq!(rt; memory.size(), 32768);
    assert_eq!(rt; memory.write(32767, 5), Ok(()));
    assert_eq!(rt; memory.write(32768, 5), Err(outside(32768, 32768)));
    let (_, flats) = memory.into_parts();
    assert_eq!(rt; flats.size(), 32768);
    assert_eq!(rt; flats.read(16383), Ok(5));
    assert_eq!(rt; flats.read(16384), Ok(0));
    Ok(())
}

// A block is stored whole, over both parts of a joint, or not at all.
#[test]
fn blocks(rt: HostRuntime) {
    let mut flat = [0, 0];
    let mut halves = [0, 0, 0, 0];
    let mut memory = Joint::new(Flat::new(&mut flat), Nibble::new(&mut halves));
    assert_eq!(rt; store(&mut memory, 1, &[7, 8, 9]), Ok(()));
    assert_eq!(rt; store(&mut memory, 2, &[1, 1, 1]), Err(outside(4, 4)));
    assert_eq!(rt; store(&mut memory, 9, &[1]), Err(outside(9, 4)));
    assert_eq!(rt; memory.read(0), Ok(0));
    assert_eq!(rt; memory.read(2), Ok(8));
    assert_eq!(rt; memory.read(3), Ok(9));
}
