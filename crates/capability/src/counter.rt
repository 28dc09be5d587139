// A revocation counter. It is out while a loan made on it has not been recalled.
// Kept: a flag beside the reading, since a counter has both at all times; a case for in and one for out would each hold
// the same number.
#[derive(Clone, Copy, PartialEq, Eq, Debug, Default)]
pub struct Counter {
    pub reading: u32,
    pub out: bool,
}
