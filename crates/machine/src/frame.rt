// What CALL keeps for RETURN: the place to return to and the floor before the call.
#[derive(Clone, Copy, Default, PartialEq, Eq, Debug)]
pub struct Frame {
    pub place: usize,
    pub floor: usize,
}
