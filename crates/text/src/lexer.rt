ghost use Rattle.std.specs.Prelude.{◌+◌, ◌≤◌, length};
ghost use Rattle.text.specs.Tokens.{bytes_left};

pub mod calls;

// What is left of a text of at most 32,768 bytes, with the place and the line at which it begins.
#[derive(Drop)]
pub struct Reader<'a> {
    rest: &'a [u8],
    place: usize,
    line: usize,
    ghost short: { place + length rest.now ≤ 32768 },
    ghost counted: { line ≤ place + 1 },
}

// What is left of the words of one line: nothing once the last has been taken.
#[derive(Drop)]
pub struct Words<'a> {
    rest: Option<&'a [u8]>,
    place: usize,
    line: usize,
    ghost short: { place + bytes_left rest ≤ 32768 },
}
