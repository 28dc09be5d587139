//! Capabilities: what one grants, how long it lives, and the registers that hold them.
#![tactic(auto)]

pub mod counter;
pub mod holding;
pub mod registers;
pub mod right;
