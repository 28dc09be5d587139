ghost use Rattle.std.specs.Prelude.{◌≡◌, ◌≤◌, Some};
ghost use Rattle.std.specs.Option.{ok_or};
ghost use Rattle.fault.specs.declared.refusal.Refusal.TheVariants.{BadText};
ghost use Rattle.text.specs.Reading.{told_at};
ghost use Rattle.text.specs.Telling.{shown_by, shown_of};
ghost use Rattle.text.specs.Sheets.{longest_of, make_named};
ghost use Rattle.text.specs.declared.job.ReadError.TheVariants.{Memory, Refused as Told};

use fault::refusal::Refusal;
use instruction::record::Record;
use plan::draft::Draft;
use std::alloc::AllocError;
use std::error::Error;
use std::fmt;

// A make of memory.
#[derive(Clone, Copy, Debug, PartialEq, Eq)]
pub enum Make {
    Flat,
    Nibble,
}

impl Make {
    // The longest memory of this make, in bytes.
    // Kept: the text does not depend on the memory crate, whose packings have these lengths too.
    pub fn longest(self) -> usize
        ensures { result ≡ longest_of self }
    {
        match self {
            Make::Flat => 32768,
            Make::Nibble => 16384,
        }
    }
}

// The make that a letter names.
impl TryFrom<&[u8]> for Make {
    type Error = Refusal;

    ghost try_from_gives = { λ letter made. made ≡ ok_or (make_named letter.now) BadText };

    fn try_from(letter: &[u8]) -> Result<Make, Refusal> {
        match letter {
            b"F" => Ok(Make::Flat),
            b"N" => Ok(Make::Nibble),
            _ => Err(Refusal::BadText),
        }
    }
}

// What an accepted text asks for: a memory of zeros, a draft, and the records of the trace.
#[derive(Drop)]
pub struct Job {
    pub make: Make,
    pub size: usize,
    pub draft: Draft,
    pub records: Vec<Record>,
    ghost fits: { size ≤ longest_of make },
}

// Why a text is refused, and at which line.
#[derive(Clone, Copy, Debug, PartialEq, Eq)]
pub struct Refused {
    pub refusal: Refusal,
    pub line: usize,
}

// Why a reading stops: what it refuses, or a want of memory.
#[derive(Clone, Copy, Debug, PartialEq, Eq)]
pub enum ReadError<R> {
    Refused(R),
    Memory(AllocError),
}

impl fmt::Display for Refused {
    ghost output = { λ refused. Some (shown_of refused) };

    fn fmt<W: fmt::Write>(&self, f: &mut fmt::Formatter<W>) -> fmt::Result {
        let number = u8::from(self.refusal);
        write!(f, "refused with {number} at line {}", self.line)
    }
}

impl Error for Refused {}

impl<R: fmt::Display> fmt::Display for ReadError<R> {
    ghost output = { shown_by R.output };

    fn fmt<W: fmt::Write>(&self, f: &mut fmt::Formatter<W>) -> fmt::Result {
        match self {
            ReadError::Refused(refused) => refused.fmt(f),
            ReadError::Memory(error) => error.fmt(f),
        }
    }
}

impl<R: Error> Error for ReadError<R> {}

impl From<Refusal> for ReadError<Refusal> {
    ghost from_gives = { λ refusal error. error ≡ Told refusal };

    fn from(refusal: Refusal) -> ReadError<Refusal> {
        ReadError::Refused(refusal)
    }
}

impl<R> From<AllocError> for ReadError<R> {
    ghost from_gives = { λ error told. told ≡ Memory error };

    fn from(error: AllocError) -> ReadError<R> {
        ReadError::Memory(error)
    }
}

impl ReadError<Refusal> {
    // The same, told at a line.
    pub(crate) fn at(self, line: usize) -> ReadError<Refused>
        ensures { result ≡ told_at line self }
    {
        match self {
            ReadError::Refused(why) => ReadError::Refused(Refused { refusal: why, line }),
            ReadError::Memory(error) => ReadError::Memory(error),
        }
    }
}
