ghost use Rattle.std.specs.Prelude.{◌≡◌};
ghost use Rattle.instruction.specs.Decoding.{encoded};

// A record before it is decoded: a code, three fields of a byte, and a number.
#[derive(Clone, Copy, PartialEq, Eq, Debug)]
pub struct Record {
    pub op: u8,
    pub a: u8,
    pub b: u8,
    pub c: u8,
    pub v: u32,
}

// The eight bytes of a record.
impl From<Record> for [u8; 8] {
    ghost from_gives = { λ r bytes. bytes ≡ encoded r };

    fn from(r: Record) -> [u8; 8] {
        let [v0, v1, v2, v3] = r.v.to_le_bytes();
        [r.op, r.a, r.b, r.c, v0, v1, v2, v3]
    }
}
