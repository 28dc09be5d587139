//! The roll change: the driver's sensor cell is lent to a script, the script reads it, the loan is recalled, and the
//! script's next read is refused.
#![tactic(auto)]

use fault::report::Fault;
use instruction::op::Op;
use instruction::record::Record;
use machine::answer::Done;
use machine::machine::Machine;
use memory::flat::Flat;
use plan::draft::Draft;
use std::io;

// The sensor's cell, on the driver's page.
const CELL: u16 = 768;

// The script runs on page 0 with tag 1; page 3 is the driver's, with tag 2 and bits R and W. Nobody lists anybody.
fn planned() -> Result<Draft, Fault> {
    let mut draft = Draft::new();
    draft.page(3, 2, 3)?;
    Ok(draft)
}

// The bytes of LOAD: value register 1 becomes what the sensor's cell holds.
fn read_cell() -> [u8; 8] {
    Record {
        op: Op::Load.into(),
        a: 1,
        b: 0,
        c: 0,
        v: CELL.into(),
    }
    .into()
}

fn tell(rt: &impl Print, who: &str, answer: Result<Done, Fault>) -> io::Result<()> {
    match answer {
        Ok(Done { place, value }) => println!(rt; "{who}: accepted, place {place}, value {value}"),
        Err(fault) => println!(rt; "{who}: {fault}"),
    }
}

fn story(rt: &impl Print, draft: Draft) -> io::Result<()> {
    let mut area = [0u8; 1024];
    let mut machine = Machine::seal(draft, Flat::new(&mut area));
    tell(
        rt,
        "host deposits the sensor's 40",
        machine.deposit(usize::from(CELL), 40),
    )?;
    tell(
        rt,
        "script reads before the loan",
        machine.obey(&read_cell()),
    )?;
    match machine.lend(1, 0, usize::from(CELL), 1, 2) {
        Ok(slip) => {
            let during = machine.obey(&read_cell());
            let back = machine.recall(slip);
            tell(rt, "script reads during the loan", during)?;
            tell(rt, "host recalls the loan", Ok(back))?;
        }
        Err(fault) => println!(rt; "host lends the cell: {fault}")?,
    }
    tell(
        rt,
        "script reads after the roll change",
        machine.obey(&read_cell()),
    )
}

fn main(rt: HostRuntime) -> anyhow::Result<()> {
    match planned() {
        Ok(draft) => story(&rt, draft)?,
        Err(fault) => println!(rt; "the plan: {fault}")?,
    }
    Ok(())
}
