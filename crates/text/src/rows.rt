ghost use Rattle.std.specs.Prelude.{◌≡◌, Ok, Err, if◌then◌else◌, nat_le};
ghost use Rattle.std.specs.Option.{ok_or};
ghost use Rattle.fault.specs.declared.refusal.Refusal.TheVariants.{BadText};
ghost use Rattle.text.specs.Model.{IfAnswered, task_of};
ghost use Rattle.text.specs.Numbers.{fields_of};
ghost use Rattle.text.specs.Sheets.{Takes, memory_of, row_of};
ghost use Rattle.text.specs.Splitting.{pieces};
ghost use Rattle.text.specs.declared.sections.Section.TheVariants.{Pages, Entries, Counters, Trace};

use crate::job::{Job, Make, ReadError};
use crate::lexer::Words;
use crate::number::numbers;
use crate::token::Part;
use fault::refusal::Refusal;
use instruction::record::Record;
use std::alloc::AllocError;

// The numbers of a row that has just so many.
fn fields<const N: usize>(line: Part<'_>) -> Result<[u32; N], Refusal>
    ensures { result ≡ ok_or (fields_of N (pieces 32 line.entry.bytes.now)) BadText }
{
    numbers(&mut Words::of(line)).ok_or(Refusal::BadText)
}

// Refuses the text where a test fails.
// Kept: the plan's and the machine's tell a Fault with a place; this one tells a bare refusal.
pub(crate) fn demand(test: bool) -> Result<(), Refusal>
    ensures { result ≡ if test then Ok tt else Err BadText }
{
    test.then_some(()).ok_or(Refusal::BadText)
}

// The byte of a number up to 255.
fn byte(n: u32) -> Result<u8, Refusal>
    ensures { result ≡ if nat_le n 255 then Ok n else Err BadText }
{
    u8::try_from(n).map_err(|_| Refusal::BadText)
}

impl Job {
    // A row of section 1: a letter and a size.
    pub(crate) fn memory_row(&mut self, line: Part<'_>) -> Result<(), Refusal>
        ensures { Takes (task_of self.old) (task_of self.new) result (memory_of (task_of self.old) line.entry.bytes.now) }
    {
        let mut words = Words::of(line);
        let letter = words.next_word().ok_or(Refusal::BadText)?;
        let make = Make::try_from(letter.bytes)?;
        let [size] = numbers::<1>(&mut words).ok_or(Refusal::BadText)?;
        // Kept: Rust has no From<u32> for usize.
        let size = size as usize;
        demand(size <= make.longest())?;
        self.make = make;
        self.size = size;
        Ok(())
    }

    // A row of section 2: PAGE.
    // Kept: this row and the next two share all that is plain to share; each has its own count of numbers and its own call.
    pub(crate) fn page_row(&mut self, line: Part<'_>) -> Result<(), Refusal>
        ensures { Takes (task_of self.old) (task_of self.new) result (row_of Pages (task_of self.old) line.entry.bytes.now) }
    {
        let [page, tag, bits] = fields::<3>(line)?;
        self.draft
            .page(page, tag, bits)
            .map_err(|fault| fault.refusal)
    }

    // A row of section 3: ENTRY.
    pub(crate) fn entry_row(&mut self, line: Part<'_>) -> Result<(), Refusal>
        ensures { Takes (task_of self.old) (task_of self.new) result (row_of Entries (task_of self.old) line.entry.bytes.now) }
    {
        let [tag, to, level] = fields::<3>(line)?;
        self.draft
            .entry(tag, to, level)
            .map_err(|fault| fault.refusal)
    }

    // A row of section 4: COUNTER.
    pub(crate) fn counter_row(&mut self, line: Part<'_>) -> Result<(), Refusal>
        ensures { Takes (task_of self.old) (task_of self.new) result (row_of Counters (task_of self.old) line.entry.bytes.now) }
    {
        let [counter, owner] = fields::<2>(line)?;
        self.draft
            .counter(counter, owner)
            .map_err(|fault| fault.refusal)
    }

    // A row of section 5: a record of the trace.
    pub(crate) fn record_row(&mut self, line: Part<'_>) -> Result<(), ReadError<Refusal>>
        ensures { IfAnswered result (λ a. Takes (task_of self.old) (task_of self.new) a (row_of Trace (task_of self.old) line.entry.bytes.now)) }
    {
        let [op, a, b, c, v] = fields::<5>(line)?;
        let record = Record {
            op: byte(op)?,
            a: byte(a)?,
            b: byte(b)?,
            c: byte(c)?,
            v,
        };
        self.records.push(record).map_err(AllocError::from)?;
        Ok(())
    }
}
