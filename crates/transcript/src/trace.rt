ghost use Rattle.std.specs.Prelude.{◌≡◌, OnOk};
ghost use Rattle.instruction.specs.Decoding.{encoded};
ghost use Rattle.machine.specs.Model.{model};
ghost use Rattle.machine.specs.Runs.{answer, obey, step};
ghost use Rattle.transcript.specs.Printed.{answer_row, rows_from};
ghost use Rattle.transcript.specs.Printing.{Appends};

use crate::printing::push_row;
use instruction::record::Record;
use machine::machine::Machine;
use memory::Memory;
use std::alloc::AllocError;

// Obeys one record and prints its row.
fn trace_one<M: Memory>(
    out: &mut String,
    machine: &mut Machine<M>,
    line: usize,
    record: Record,
) -> Result<(), AllocError>
    ensures after { model M.bytes machine.new ≡ step (model M.bytes machine.old) (obey (encoded «record»)) }
    ensures printed { OnOk result (Appends out.old out.new (answer_row line (answer (model M.bytes machine.old) (obey (encoded «record»))))) }
{
    push_row(out, line, machine.obey(&<[u8; 8]>::from(record)))
}

// Obeys the records in order and prints a row for each.
pub(crate) fn trace<M: Memory>(
    out: &mut String,
    machine: &mut Machine<M>,
    records: &[Record],
) -> Result<(), AllocError>
    ensures { OnOk result (Appends out.old out.new (rows_from (model M.bytes machine.old) 1 records.now)) }
{
    for (line, record) in (1..).zip(records) {
        trace_one(out, machine, line, *record)?;
    }
    Ok(())
}
