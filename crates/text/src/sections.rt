ghost use Rattle.std.specs.Prelude.{◌≡◌};
ghost use Rattle.text.specs.Sections.{blank_closes, names_of, next_of};

// The five sections of a text, in their order.
#[derive(Clone, Copy, Debug, PartialEq, Eq)]
pub enum Section {
    Memory,
    Pages,
    Entries,
    Counters,
    Trace,
}

// What the next line must be: a section's names, one of its rows, or the blank line behind its only row.
#[derive(Clone, Copy, Debug, PartialEq, Eq)]
pub enum Stage {
    Names(Section),
    Rows(Section),
    Closed(Section),
}

impl Section {
    // The line of names with which the section begins.
    pub fn names(self) -> &'static [u8]
        ensures { result.now ≡ names_of self }
    {
        match self {
            Section::Memory => b"memory size",
            Section::Pages => b"page tag bits",
            Section::Entries => b"tag to level",
            Section::Counters => b"counter owner",
            Section::Trace => b"op a b c v",
        }
    }

    // Whether a blank line closes the rows.
    pub fn closes(self) -> bool
        ensures { result ≡ blank_closes self }
    {
        match self {
            Section::Memory | Section::Trace => false,
            Section::Pages | Section::Entries | Section::Counters => true,
        }
    }

    // The section behind this one; the trace is the last.
    pub fn next(self) -> Section
        ensures { result ≡ next_of self }
    {
        match self {
            Section::Memory => Section::Pages,
            Section::Pages => Section::Entries,
            Section::Entries => Section::Counters,
            Section::Counters | Section::Trace => Section::Trace,
        }
    }
}
