ghost use Rattle.std.specs.Prelude.{◌≡◌, IfOk, string_bytes, OnOk};
ghost use Rattle.machine.specs.State.{started};
ghost use Rattle.plan.specs.Model.{drafted};
ghost use Rattle.text.specs.Model.{task_of};
ghost use Rattle.transcript.specs.Printed.{rows_from, start_of, transcript};
ghost use Rattle.transcript.specs.Printing.{Appends};

use crate::printing::{push_names, push_refused};
use crate::trace::trace;
use instruction::record::Record;
use machine::machine::Machine;
use memory::Memory;
use memory::flat::Flat;
use memory::nibble::Nibble;
use plan::draft::Draft;
use std::alloc::{AllocError, Global};
use text::job::{Job, Make, ReadError};
use text::reading::read;

// Seals a draft with a memory, obeys the records and prints their rows.
fn run_over<M: Memory + Drop>(
    out: &mut String,
    draft: Draft,
    memory: M,
    records: &[Record],
) -> Result<(), AllocError>
    ensures { OnOk result (Appends out.old out.new (rows_from (record { plan = (drafted draft).plan; core = started; bytes = M.bytes memory }) 1 records.now)) }
{
    let mut machine = Machine::seal(draft, memory);
    trace(out, &mut machine, records)
}

// Runs a job over a memory of zeros.
fn run_job(heap: Global, out: &mut String, job: Job) -> Result<(), AllocError>
    ensures { OnOk result (Appends out.old out.new (rows_from (start_of (task_of job)) 1 job.records.items)) }
{
    let Job {
        make,
        size,
        draft,
        records,
    } = job;
    match make {
        Make::Flat => {
            let mut area = vec![in heap; 0u8; size]?;
            run_over(out, draft, Flat::new(&mut area), &records)
        }
        Make::Nibble => {
            let mut area = vec![in heap; 0u8; 2 * size]?;
            run_over(out, draft, Nibble::new(&mut area), &records)
        }
    }
}

// What is printed of a text, to the byte. An error is a want of memory.
pub fn run(heap: Global, text: &[u8]) -> Result<String, AllocError>
    ensures { IfOk result (λ out. string_bytes out ≡ transcript text.now) }
{
    let mut out = String::new(heap);
    match read(heap, text) {
        Ok(job) => {
            push_names(&mut out)?;
            run_job(heap, &mut out, job)?;
        }
        Err(ReadError::Refused(refused)) => push_refused(&mut out, refused)?,
        Err(ReadError::Memory(error)) => return Err(error),
    }
    Ok(out)
}
