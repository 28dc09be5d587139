//! From the text of a plan and a trace to what is printed of it.
#![tactic(auto)]

mod printing;
pub mod program;
mod trace;
