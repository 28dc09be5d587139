ghost use Rattle.std.specs.Prelude.{◌≡◌};
ghost use Rattle.text.specs.Laws.{Earliest, Exact, Long, Once};
ghost use Rattle.text.specs.Model.{IfAnswered, finished, outcome, state_of};
ghost use Rattle.text.specs.Reading.{read_from, read_of, refused_at};
ghost use Rattle.text.specs.Splitting.{lines_of};
ghost use Rattle.fault.specs.declared.refusal.Refusal.TheVariants.{BadText};
ghost use Rattle.text.specs.declared.job.ReadError.TheVariants.{Refused as Told};

use crate::job::{Job, ReadError, Refused};
use crate::lexer::Reader;
use crate::sheet::Sheet;
use crate::token::{LONGEST, Token};
use fault::refusal::Refusal;
use std::alloc::Global;

// A text that is refused as such, at a line.
fn bad_text(line: usize) -> ReadError<Refused>
    ensures { result ≡ Told (refused_at BadText line) }
{
    ReadError::Refused(Refused {
        refusal: Refusal::BadText,
        line,
    })
}

// Hands the lines to the sheet, up to the first that is refused.
fn read_lines(reader: &mut Reader<'_>, sheet: &mut Sheet) -> Result<(), ReadError<Refused>>
    ensures { IfAnswered result (λ a. finished a (state_of sheet.new) ≡ read_from (state_of sheet.old) reader.old.line (lines_of reader.old.rest.now)) }
{
    loop {
        match reader.next_line() {
            Token::Line(part) => sheet.take(part).map_err(|error| error.at(part.line))?,
            Token::Open(part) => return Err(bad_text(part.line)),
            Token::End { .. } if sheet.may_end() => return Ok(()),
            Token::End { line, .. } => return Err(bad_text(line)),
        }
    }
}

// Reads a text into its job, or refuses it at its first wrong line.
pub fn read(heap: Global, text: &[u8]) -> Result<Job, ReadError<Refused>>
    ensures value { IfAnswered result (λ a. outcome a ≡ read_of text.now) }
    ensures exact { Exact }
    ensures once { Once }
    ensures earliest { Earliest }
    ensures long { Long }
{
    if text.len() > LONGEST {
        return Err(bad_text(0));
    }
    let mut reader = Reader::new(text);
    let mut sheet = Sheet::new(heap);
    read_lines(&mut reader, &mut sheet)?;
    Ok(sheet.into_job())
}

#[cfg(test)]
mod tests {
    use super::*;
    use std::alloc::AllocError;
    use std::test::Fail;

    // Which refusal a text meets, and at which line.
    fn refused(heap: Global, text: &[u8]) -> Result<Option<(Refusal, usize)>, AllocError> {
        match read(heap, text) {
            Ok(_) => Ok(None),
            Err(ReadError::Refused(refused)) => Ok(Some((refused.refusal, refused.line))),
            Err(ReadError::Memory(error)) => Err(error),
        }
    }

    #[test]
    fn accepts(rt: HostRuntime) -> Result<(), Fail> {
        let text =
            b"memory size\nF 9\n\npage tag bits\n1 1 3\n\ntag to level\n\ncounter owner\n\nop a b c v\n1 0 0 0 7\n";
        assert!(rt; refused(rt.alloc(), text)?.is_none());
        Ok(())
    }

    #[test]
    fn tells_a_wrong_word(rt: HostRuntime) -> Result<(), Fail> {
        let text = b"memory size\nF 09\n";
        assert_eq!(rt; refused(rt.alloc(), text)?, Some((Refusal::BadText, 2)));
        Ok(())
    }

    #[test]
    fn tells_a_missing_line(rt: HostRuntime) -> Result<(), Fail> {
        let text = b"memory size\nN 0\n";
        assert_eq!(rt; refused(rt.alloc(), text)?, Some((Refusal::BadText, 3)));
        Ok(())
    }

    #[test]
    fn tells_the_draft(rt: HostRuntime) -> Result<(), Fail> {
        let text = b"memory size\nF 9\n\npage tag bits\n0 1 3\n 1\n";
        assert_eq!(rt; refused(rt.alloc(), text)?, Some((Refusal::DraftNumber, 5)));
        Ok(())
    }

    // The draft's other refusals, each at the line of its row.
    #[test]
    fn tells_a_wrong_tag(rt: HostRuntime) -> Result<(), Fail> {
        let text = b"memory size\nF 9\n\npage tag bits\n1 64 3\n";
        assert_eq!(rt; refused(rt.alloc(), text)?, Some((Refusal::DraftTag, 5)));
        Ok(())
    }

    #[test]
    fn tells_wrong_bits(rt: HostRuntime) -> Result<(), Fail> {
        let text = b"memory size\nF 9\n\npage tag bits\n1 1 20\n";
        assert_eq!(rt; refused(rt.alloc(), text)?, Some((Refusal::DraftBits, 5)));
        Ok(())
    }

    #[test]
    fn tells_a_repeat(rt: HostRuntime) -> Result<(), Fail> {
        let text = b"memory size\nF 9\n\npage tag bits\n1 1 3\n1 2 3\n";
        assert_eq!(rt; refused(rt.alloc(), text)?, Some((Refusal::DraftRepeat, 6)));
        Ok(())
    }

    #[test]
    fn tells_a_ninth_store(rt: HostRuntime) -> Result<(), Fail> {
        let text =
            b"memory size\nF 9\n\npage tag bits\n1 1 19\n2 1 19\n3 1 19\n4 1 19\n5 1 19\n6 1 19\n7 1 19\n8 1 19\n9 1 19\n";
        assert_eq!(rt; refused(rt.alloc(), text)?, Some((Refusal::DraftFull, 13)));
        Ok(())
    }

    #[test]
    fn tells_an_open_line(rt: HostRuntime) -> Result<(), Fail> {
        let text = b"memory size\nF 9\n\npage tag bits";
        assert_eq!(rt; refused(rt.alloc(), text)?, Some((Refusal::BadText, 4)));
        Ok(())
    }

    #[test]
    fn tells_the_text_first(rt: HostRuntime) -> Result<(), Fail> {
        let text = b"memory size\nF 9\n\npage tag bits\n0 1  3\n";
        assert_eq!(rt; refused(rt.alloc(), text)?, Some((Refusal::BadText, 5)));
        Ok(())
    }

    #[test]
    fn tells_a_long_text(rt: HostRuntime) -> Result<(), Fail> {
        let text = [b'\n'; 32769];
        assert_eq!(rt; refused(rt.alloc(), &text)?, Some((Refusal::BadText, 0)));
        Ok(())
    }
}
