ghost use Rattle.std.specs.Prelude.{◌≡◌};
ghost use Rattle.text.specs.Model.{IfAnswered, state_of, task_of};
ghost use Rattle.text.specs.Reading.{may_end, row_at, start, step_line};
ghost use Rattle.text.specs.Sheets.{Takes};

use crate::job::{Job, Make, ReadError};
use crate::rows::demand;
use crate::sections::{Section, Stage};
use crate::token::Part;
use fault::refusal::Refusal;
use plan::draft::Draft;
use std::alloc::Global;

// What has been read of a text, and what its next line must be.
#[derive(Drop)]
pub(crate) struct Sheet {
    stage: Stage,
    job: Job,
}

impl Sheet {
    // Nothing read: the names of section 1 come first.
    pub(crate) fn new(heap: Global) -> Sheet
        ensures { state_of result ≡ start }
    {
        Sheet {
            stage: Stage::Names(Section::Memory),
            job: Job {
                make: Make::Flat,
                size: 0,
                draft: Draft::new(),
                records: Vec::new(heap),
            },
        }
    }

    // Whether the text may end here.
    pub(crate) fn may_end(&self) -> bool
        ensures { result ≡ may_end self.now.stage }
    {
        matches!(self.stage, Stage::Rows(Section::Trace))
    }

    pub(crate) fn into_job(self) -> Job
        ensures { task_of result ≡ task_of self.job }
    {
        let Sheet { stage: _, job } = self;
        job
    }

    // A row of a section.
    fn row(&mut self, section: Section, line: Part<'_>) -> Result<(), ReadError<Refusal>>
        requires { self.old.stage ≡ Stage.Rows section }
        ensures { IfAnswered result (λ a. Takes (state_of self.old) (state_of self.new) a (row_at section (task_of self.old.job) line.entry.bytes.now)) }
    {
        // Kept: each section's row is a method of its own, and a match on the enum names them most plainly.
        match section {
            Section::Memory => {
                self.job.memory_row(line)?;
                self.stage = Stage::Closed(section);
            }
            Section::Pages => self.job.page_row(line)?,
            Section::Entries => self.job.entry_row(line)?,
            Section::Counters => self.job.counter_row(line)?,
            Section::Trace => self.job.record_row(line)?,
        }
        Ok(())
    }

    // Takes the next line, without its line feed. A refused line leaves the sheet as it was.
    pub(crate) fn take(&mut self, line: Part<'_>) -> Result<(), ReadError<Refusal>>
        ensures { IfAnswered result (λ a. Takes (state_of self.old) (state_of self.new) a (step_line (state_of self.old) line.entry.bytes.now)) }
    {
        match self.stage {
            Stage::Names(section) => {
                demand(line.bytes == section.names())?;
                self.stage = Stage::Rows(section);
            }
            Stage::Rows(section) if section.closes() && line.bytes.is_empty() => {
                self.stage = Stage::Names(section.next());
            }
            Stage::Rows(section) => self.row(section, line)?,
            Stage::Closed(section) => {
                demand(line.bytes.is_empty())?;
                self.stage = Stage::Names(section.next());
            }
        }
        Ok(())
    }
}
