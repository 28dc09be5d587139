//! Records of eight bytes, decoded into instructions with their fields checked.
#![tactic(auto)]

pub mod decode;
pub mod form;
pub mod op;
pub mod record;
