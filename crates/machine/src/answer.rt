// What an accepted call answers: the place after it and a value.
#[derive(Clone, Copy, PartialEq, Eq, Debug)]
pub struct Done {
    pub place: usize,
    pub value: u32,
}

// The slip of a loan. It can neither be copied nor dropped: its holder has to hand it to RECALL.
pub struct Slip {
    pub(crate) counter: u8,
    pub(crate) reading: u32,
}
