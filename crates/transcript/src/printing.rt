ghost use Rattle.std.specs.Prelude.{OnOk};
ghost use Rattle.fault.specs.Refusals.{number_of};
ghost use Rattle.transcript.specs.Printed.{answer_row};
ghost use Rattle.transcript.specs.Printing.{Appends, printed_names, printed_refusal};

use fault::report::Fault;
use machine::answer::Done;
use std::alloc::AllocError;
use text::job::Refused;

// The line above the rows.
pub(crate) fn push_names(out: &mut String) -> Result<(), AllocError>
    ensures { OnOk result (Appends out.old out.new printed_names) }
{
    out.push_str("line answer place value\n")
}

// The line of one record: its number from 1, 0 or the refusal's number, the place and the value.
pub(crate) fn push_row(
    out: &mut String,
    line: usize,
    said: Result<Done, Fault>,
) -> Result<(), AllocError>
    ensures { OnOk result (Appends out.old out.new (answer_row line said)) }
{
    let (answer, place, value) = match said {
        Ok(done) => (0, done.place, done.value),
        Err(fault) => (u8::from(fault.refusal), fault.place, 0),
    };
    writeln!(out, "{line} {answer} {place} {value}")
}

// The two lines of a refused text.
pub(crate) fn push_refused(out: &mut String, refused: Refused) -> Result<(), AllocError>
    ensures { OnOk result (Appends out.old out.new (printed_refusal (number_of refused.refusal) refused.line)) }
{
    let number = u8::from(refused.refusal);
    let line = refused.line;
    writeln!(out, "refused line\n{number} {line}")
}
