ghost use Rattle.std.specs.Prelude.{◌≡◌, Some};
ghost use Rattle.instruction.specs.Decoding.{op_named, op_of};

use fault::refusal::Refusal;

// The instructions, in the order of their codes.
#[derive(Clone, Copy, PartialEq, Eq, Debug)]
pub enum Op {
    Set = 1,
    Add,
    Load,
    Store,
    Jump,
    Call,
    Return,
    Branch,
    Make,
    Cut,
    Drop,
    Push,
    Pop,
    Keep,
    Fetch,
    Revoke,
    Panel,
}

// The instruction of a code, 1 to 17.
impl TryFrom<u8> for Op {
    type Error = Refusal;

    ghost try_from_gives = { λ code op. op ≡ op_named code };

    fn try_from(code: u8) -> Result<Op, Refusal> {
        match code {
            1 => Ok(Op::Set),
            2 => Ok(Op::Add),
            3 => Ok(Op::Load),
            4 => Ok(Op::Store),
            5 => Ok(Op::Jump),
            6 => Ok(Op::Call),
            7 => Ok(Op::Return),
            8 => Ok(Op::Branch),
            9 => Ok(Op::Make),
            10 => Ok(Op::Cut),
            11 => Ok(Op::Drop),
            12 => Ok(Op::Push),
            13 => Ok(Op::Pop),
            14 => Ok(Op::Keep),
            15 => Ok(Op::Fetch),
            16 => Ok(Op::Revoke),
            17 => Ok(Op::Panel),
            _ => Err(Refusal::UnknownCode),
        }
    }
}

// The code that names the instruction.
impl From<Op> for u8 {
    ghost from_gives = { λ op code. op_of code ≡ Some op };

    fn from(op: Op) -> u8 {
        op as u8
    }
}
