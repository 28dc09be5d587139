ghost use Rattle.std.specs.Prelude.{◌≡◌};
ghost use Rattle.text.specs.Numbers.{Writes, fields_of, number_of, number_on};
ghost use Rattle.text.specs.Tokens.{words_left};

use crate::lexer::Words;

// The number that a row of digits writes, if it is not too large.
// Kept: tried as a `try_fold`, whose proof the check does not close and the library has no lemma for; the loop's invariant is one line.
// The library's `parse` reads a &str, and other spellings too.
fn digits(word: &[u8]) -> Option<u32>
    ensures { result ≡ number_on 0 word.now }
{
    let mut n: u32 = 0;
    for byte in word {
        if !byte.is_ascii_digit() {
            return None;
        }
        n = n.checked_mul(10)?.checked_add(u32::from(*byte - b'0'))?;
    }
    Some(n)
}

// The number that a word writes in base ten, with no needless zero in front.
pub fn number(word: &[u8]) -> Option<u32>
    ensures value { result ≡ number_of word.now }
    ensures exact { Writes word.now result }
{
    match word {
        [] | [b'0', _, ..] => None,
        _ => digits(word),
    }
}

// The numbers that the words left write, if they are just so many.
pub(crate) fn numbers<const N: usize>(words: &mut Words<'_>) -> Option<[u32; N]>
    ensures { result ≡ fields_of N (words_left words.old.rest) }
{
    let mut fields = [0; N];
    for field in &mut fields {
        *field = number(words.next_word()?.bytes)?;
    }
    words.next_word().is_none().then_some(fields)
}
