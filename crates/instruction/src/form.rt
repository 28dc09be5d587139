ghost use Rattle.std.specs.Prelude.{◌≡◌};
ghost use Rattle.instruction.specs.Decoding.{fits, form_of};

use crate::op::Op;
use Field::{Any, Counter, Grant, Part, Register, Unused};

// What a field holds, and so which numbers it may have.
#[derive(Clone, Copy, PartialEq, Eq, Debug)]
pub enum Field {
    // Nothing: it has to be 0.
    Unused,
    // A register, 0 to 7.
    Register,
    // A counter, 1 to 16.
    Counter,
    // Any number.
    Any,
    // A level 1 to 3 and four times a life: 0, or a counter.
    Grant,
    // A level 1 to 3 and four times a register.
    Part,
}

// The fields of an instruction.
#[derive(Clone, Copy, PartialEq, Eq, Debug)]
pub struct Form {
    pub a: Field,
    pub b: Field,
    pub c: Field,
    pub v: Field,
}

impl Field {
    // Whether a field of this kind may hold the number.
    pub fn fits(self, n: u32) -> bool
        ensures { result ≡ fits self n }
    {
        match self {
            Field::Unused => n == 0,
            Field::Register => n < 8,
            Field::Counter => (1..=16).contains(&n),
            Field::Any => true,
            Field::Grant => n % 4 != 0 && n / 4 <= 16,
            Field::Part => n % 4 != 0 && n / 4 < 8,
        }
    }
}

impl Op {
    // The fields that the instruction uses.
    pub fn form(self) -> Form
        ensures { result ≡ form_of self }
    {
        match self {
            Op::Set | Op::Branch => fields(Register, Unused, Unused, Any),
            Op::Add => fields(Register, Register, Unused, Unused),
            Op::Load | Op::Store | Op::Keep | Op::Fetch => fields(Register, Register, Unused, Any),
            Op::Jump | Op::Call => fields(Unused, Unused, Unused, Any),
            Op::Return => fields(Unused, Unused, Unused, Unused),
            Op::Make => fields(Register, Register, Register, Grant),
            Op::Cut => fields(Register, Register, Register, Part),
            Op::Drop | Op::Push | Op::Pop | Op::Panel => fields(Register, Unused, Unused, Unused),
            Op::Revoke => fields(Counter, Unused, Unused, Unused),
        }
    }
}

fn fields(a: Field, b: Field, c: Field, v: Field) -> Form
    ensures { result ≡ record { a = a; b = b; c = c; v = v } }
{
    Form { a, b, c, v }
}
