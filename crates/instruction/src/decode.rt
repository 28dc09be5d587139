ghost use Rattle.std.specs.Prelude.{◌≡◌, true, IfOk, if◌then◌else◌, Ok, Err};
ghost use Rattle.fault.specs.declared.refusal.Refusal.TheVariants.{FieldRange};
ghost use Rattle.instruction.specs.Decoding.{ReadBack, decoded, fitting};

use crate::op::Op;
use fault::refusal::Refusal;

// An instruction with its fields. In what `decode` answers, each is in its range.
// Kept: a type beside `Record`, whose op is any byte; one type over both would say `Record<Op>` wherever an instruction is meant.
#[derive(Clone, Copy, PartialEq, Eq, Debug)]
pub struct Decoded {
    pub op: Op,
    pub a: u8,
    pub b: u8,
    pub c: u8,
    pub v: u32,
}

// The instruction of a record, or the first of refusals 1 to 3.
#[tactic(auto, using(crate::proofs::Records::read_back))]
pub fn decode(bytes: &[u8]) -> Result<Decoded, Refusal>
    ensures value { result ≡ decoded bytes.now }
    ensures fitting { IfOk result (λ d. fitting d ≡ true) }
    ensures read_back { ReadBack }
{
    match bytes {
        [code, a, b, c, v0, v1, v2, v3] => {
            let v = u32::from_le_bytes([*v0, *v1, *v2, *v3]);
            let op = Op::try_from(*code)?;
            shape(Decoded {
                op,
                a: *a,
                b: *b,
                c: *c,
                v,
            })
        }
        _ => Err(Refusal::RecordLength),
    }
}

fn shape(d: Decoded) -> Result<Decoded, Refusal>
    ensures value { result ≡ (if fitting d then Ok d else Err FieldRange) }
    ensures fitting { IfOk result (λ e. fitting e ≡ true) }
{
    let form = d.op.form();
    if form.a.fits(u32::from(d.a))
        && form.b.fits(u32::from(d.b))
        && form.c.fits(u32::from(d.c))
        && form.v.fits(d.v)
    {
        Ok(d)
    } else {
        Err(Refusal::FieldRange)
    }
}
