ghost use Rattle.std.specs.Prelude.{◌≡◌, ◌+◌, ◌≤◌, ◌∷◌, length, IfSome};
ghost use Rattle.text.specs.Splitting.{lines_of, pieces};
ghost use Rattle.text.specs.Tokens.{Stands, bytes_behind, bytes_left, line_after, lines_from, pieces_left, place_after, seen, words_from, words_left};

use super::{Reader, Words};
use crate::token::{Part, Token};

// The bytes before the first stop, and those behind it, if there is one.
fn split_at_stop(bytes: &[u8], stop: u8) -> (&[u8], Option<&[u8]>)
    ensures pieces { pieces stop bytes.now ≡ result.0.now ∷ pieces_left stop result.1 }
    ensures length { length bytes.now ≡ length result.0.now + bytes_behind result.1 }
{
    match bytes.iter().position(|b| *b == stop) {
        Some(end) => (&bytes[..end], Some(&bytes[end + 1..])),
        None => (bytes, None),
    }
}

impl<'a> Reader<'a> {
    // Starts at the first byte of line 1.
    pub(crate) fn new(text: &'a [u8]) -> Reader<'a>
        requires { length text.now ≤ 32768 }
        ensures { (result.rest.now ≡ text.now) × (result.place ≡ 0) × (result.line ≡ 1) }
    {
        Reader {
            rest: text,
            place: 0,
            line: 1,
        }
    }

    // Takes the next line.
    pub fn next_line(&mut self) -> Token<'a>
        ensures token { lines_of self.old.rest.now ≡ lines_from (seen result) (lines_of self.new.rest.now) }
        ensures stands { Stands (seen result) self.old.place self.old.line }
        ensures place { self.new.place ≡ place_after (seen result) self.old.place }
        ensures left { self.new.place + length self.new.rest.now ≡ self.old.place + length self.old.rest.now }
        ensures line { self.new.line ≡ line_after (seen result) self.old.line }
    {
        let (place, line) = (self.place, self.line);
        if self.rest.is_empty() {
            return Token::End { place, line };
        }
        let (bytes, behind) = split_at_stop(self.rest, b'\n');
        let part = Part { bytes, place, line };
        let end = place + bytes.len();
        match behind {
            Some(behind) => {
                self.rest = behind;
                self.place = end + 1;
                self.line = line + 1;
                Token::Line(part)
            }
            None => {
                self.rest = &[];
                self.place = end;
                Token::Open(part)
            }
        }
    }
}

impl<'a> Words<'a> {
    // The words of a line: one more than it has spaces.
    pub(crate) fn of(line: Part<'a>) -> Words<'a>
        ensures words { words_left result.rest ≡ pieces 32 line.entry.bytes.now }
        ensures stands { (result.place ≡ line.entry.place) × (result.line ≡ line.entry.line) }
    {
        Words {
            rest: Some(line.bytes),
            place: line.place,
            line: line.line,
        }
    }

    // Takes the next word.
    pub fn next_word(&mut self) -> Option<Part<'a>>
        ensures word { words_left self.old.rest ≡ words_from result (words_left self.new.rest) }
        ensures stands { IfSome result (λ w. (w.place ≡ self.old.place) × (w.line ≡ self.old.line)) }
        ensures left { self.new.place + bytes_left self.new.rest ≡ self.old.place + bytes_left self.old.rest }
        ensures line { self.new.line ≡ self.old.line }
    {
        let (place, line) = (self.place, self.line);
        let (bytes, rest) = split_at_stop(self.rest?, b' ');
        self.rest = rest;
        self.place = place + bytes.len() + usize::from(rest.is_some());
        Some(Part { bytes, place, line })
    }
}
