//! Stores a label in a joint memory over two areas of the host, reads it back, and shows a refusal.
#![tactic(auto)]

use fault::report::Fault;
use memory::Memory;
use memory::block::store;
use memory::flat::Flat;
use memory::joint::Joint;
use memory::nibble::Nibble;

// Prints the memory's bytes as text, an unused byte as a dot.
fn show<M: Memory>(rt: &HostRuntime, memory: &M) -> anyhow::Result<()> {
    let mut text = String::new(rt.alloc());
    // Kept: a memory is read by address alone, and lends no slice to walk over.
    for address in 0..memory.size() {
        text.push(match memory.read(address)? {
            0 => '.',
            byte => char::from(byte),
        })?;
    }
    println!(rt; "{text}")?;
    Ok(())
}

// Prints what was done, or the refusal.
fn tell(rt: &HostRuntime, answer: Result<(), Fault>, done: &str) -> anyhow::Result<()> {
    match answer {
        Ok(()) => println!(rt; "{done}")?,
        Err(fault) => println!(rt; "{fault}")?,
    }
    Ok(())
}

fn run(rt: &HostRuntime) -> anyhow::Result<()> {
    let mut first = [0u8; 16];
    let mut second = [0u8; 24];
    let mut label = Joint::new(Flat::new(&mut first), Nibble::new(&mut second));
    let size = label.size();
    println!(rt; "label memory of {size} bytes: 16 flat, 12 in halves")?;
    tell(
        rt,
        store(&mut label, 4, b"ROLL 7: 80 x 40 mm"),
        "stored 18 bytes at 4",
    )?;
    show(rt, &label)?;
    tell(rt, label.write(28, 33), "stored a byte at 28")?;
    let (flat, halves) = label.into_parts();
    show(rt, &flat)?;
    show(rt, &halves)?;
    let area = halves.into_area();
    println!(rt; "area of the halves: {area:?}")?;
    Ok(())
}

fn main(rt: HostRuntime) -> anyhow::Result<()> {
    run(&rt)
}
