ghost use Rattle.std.specs.Prelude.{◌+◌, ◌≤◌, length};

// How many bytes a text may have.
pub(crate) const LONGEST: usize = 32_768;

// A stretch of the text: its bytes, where it begins, and the line on which it stands, counted from 1.
#[derive(Clone, Copy, Debug, PartialEq, Eq)]
pub struct Part<'a> {
    pub bytes: &'a [u8],
    pub place: usize,
    pub line: usize,
    ghost short: { place + length bytes.now ≤ 32768 },
}

// A line without its line feed, a last line that has none, or the end of the text.
#[derive(Clone, Copy, Debug, PartialEq, Eq)]
pub enum Token<'a> {
    Line(Part<'a>),
    Open(Part<'a>),
    End { place: usize, line: usize },
}
