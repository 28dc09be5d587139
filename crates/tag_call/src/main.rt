//! Two tags without the host: a script calls a driver at its door, the driver makes a capability on its own counter and
//! hands it over, the script reads through it, and the driver revokes it.
#![tactic(auto)]

use Op::{Call, Jump, Load, Make, Return, Revoke, Set, Store};
use fault::report::Fault;
use instruction::op::Op;
use instruction::record::Record;
use machine::answer::Done;
use machine::machine::Machine;
use memory::Memory;
use memory::flat::Flat;
use plan::draft::Draft;
use std::io;

// Page 2 is the driver's code, page 3 its data; the script's tag 1 may call the driver's tag 2. Counter 1 is tag 2's.
fn planned() -> Result<Draft, Fault> {
    let mut draft = Draft::new();
    draft.page(2, 2, 5)?;
    draft.page(3, 2, 3)?;
    draft.entry(1, 2, 1)?;
    draft.counter(1, 2)?;
    Ok(draft)
}

fn record(op: Op, a: u8, b: u8, c: u8, v: u32) -> Record {
    let op = op.into();
    Record { op, a, b, c, v }
}

fn obey<M: Memory>(
    rt: &impl Print,
    machine: &mut Machine<M>,
    what: &str,
    record: Record,
) -> io::Result<()> {
    let bytes = <[u8; 8]>::from(record);
    match machine.obey(&bytes) {
        Ok(Done { place, value }) => println!(rt; "{what}: place {place}, value {value}"),
        Err(fault) => println!(rt; "{what}: {fault}"),
    }
}

// The driver stores a reading and makes a capability for one byte of its page, with level Read, on counter 1.
fn hand_over<M: Memory>(rt: &impl Print, machine: &mut Machine<M>) -> io::Result<()> {
    obey(rt, machine, "script CALL 512", record(Call, 0, 0, 0, 512))?;
    obey(
        rt,
        machine,
        "driver SET 0 to 768",
        record(Set, 0, 0, 0, 768),
    )?;
    obey(rt, machine, "driver SET 2 to 1", record(Set, 2, 0, 0, 1))?;
    obey(rt, machine, "driver SET 3 to 40", record(Set, 3, 0, 0, 40))?;
    obey(rt, machine, "driver STORE 3", record(Store, 3, 0, 0, 0))?;
    obey(rt, machine, "driver MAKE 0", record(Make, 0, 0, 2, 6))?;
    obey(rt, machine, "driver RETURN", record(Return, 0, 0, 0, 0))
}

fn take_back<M: Memory>(rt: &impl Print, machine: &mut Machine<M>) -> io::Result<()> {
    obey(rt, machine, "script CALL 512", record(Call, 0, 0, 0, 512))?;
    obey(rt, machine, "driver REVOKE 1", record(Revoke, 1, 0, 0, 0))?;
    obey(rt, machine, "driver RETURN", record(Return, 0, 0, 0, 0))
}

fn story(rt: &impl Print, draft: Draft) -> io::Result<()> {
    let mut area = [0u8; 1024];
    let mut machine = Machine::seal(draft, Flat::new(&mut area));
    obey(
        rt,
        &mut machine,
        "script JUMP 516",
        record(Jump, 0, 0, 0, 516),
    )?;
    hand_over(rt, &mut machine)?;
    obey(rt, &mut machine, "script LOAD 1", record(Load, 1, 0, 0, 0))?;
    take_back(rt, &mut machine)?;
    obey(rt, &mut machine, "script LOAD 1", record(Load, 1, 0, 0, 0))
}

fn main(rt: HostRuntime) -> anyhow::Result<()> {
    match planned() {
        Ok(draft) => story(&rt, draft)?,
        Err(fault) => println!(rt; "the plan: {fault}")?,
    }
    Ok(())
}
