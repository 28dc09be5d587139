// How levels, layers and faults are written in messages.
use crate::level::Level;
use crate::refusal::Layer;
use crate::report::{Access, Cause, Fault, Outside};
use std::fmt;

impl fmt::Display for Level {
    fn fmt<W: fmt::Write>(&self, f: &mut fmt::Formatter<W>) -> fmt::Result {
        f.write_str(match self {
            Level::Nothing => "none",
            Level::Call => "Call",
            Level::Read => "Read",
            Level::Write => "Write",
        })
    }
}

impl fmt::Display for Layer {
    fn fmt<W: fmt::Write>(&self, f: &mut fmt::Formatter<W>) -> fmt::Result {
        f.write_str(match self {
            Layer::Record => "record",
            Layer::Page => "page",
            Layer::Memory => "memory",
            Layer::Right => "right",
            Layer::Stack => "stack",
            Layer::Owner => "owner",
            Layer::Draft => "draft",
            Layer::Map => "map",
            Layer::Text => "text",
        })
    }
}

impl fmt::Display for Cause {
    fn fmt<W: fmt::Write>(&self, f: &mut fmt::Formatter<W>) -> fmt::Result {
        match self {
            Cause::Access(
                Access {
                    address,
                    tag,
                    level,
                },
            ) => write!(f, ", address {address}, tag {tag}, level {level}"),
            Cause::Memory(Outside { address, size }) => {
                write!(f, ", address {address}, size {size}")
            }
            Cause::Bare => Ok(()),
        }
    }
}

impl fmt::Display for Fault {
    fn fmt<W: fmt::Write>(&self, f: &mut fmt::Formatter<W>) -> fmt::Result {
        let Fault {
            refusal,
            layer,
            place,
            cause,
        } = self;
        let number = u8::from(*refusal);
        write!(
            f,
            "refused with {number}, layer {layer}, place {place}{cause}"
        )
    }
}
