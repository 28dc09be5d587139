ghost use Rattle.std.specs.Prelude.{◌≡◌};
ghost use Rattle.capability.specs.Holdings.{covers, span_of, spans};

use fault::level::Level;

// How many addresses there are.
pub const ADDRESSES: usize = 32_768;

// The bytes from `base` to `base + size`.
#[derive(Clone, Copy, PartialEq, Eq, Debug)]
pub struct Span {
    pub base: usize,
    pub size: usize,
}

// What a capability grants: a level over the bytes from `base` to `base + size`.
// Kept: base and size stand in it directly; with a span inside, each rule would say `right.span.base` for `right.base`.
#[derive(Clone, Copy, PartialEq, Eq, Debug)]
pub struct Right {
    pub base: usize,
    pub size: usize,
    pub level: Level,
}

impl Span {
    // Whether a capability may have this span: it is not empty and ends within the addresses.
    pub fn is_valid(self) -> bool
        ensures { result ≡ spans self.base self.size }
    {
        self.size != 0 && self.size <= ADDRESSES && self.base <= ADDRESSES - self.size
    }
}

impl Right {
    // The bytes that it gives a level over.
    pub fn span(self) -> Span
        ensures { result ≡ span_of self }
    {
        Span {
            base: self.base,
            size: self.size,
        }
    }

    // Whether all of these bytes lie within.
    pub fn covers(self, part: Span) -> bool
        ensures { result ≡ covers self part.base part.size }
    {
        self.base <= part.base
            && part.size <= self.size
            && part.base - self.base <= self.size - part.size
    }
}
