//! The machine: its state, the seventeen instructions, and the host's calls.
#![tactic(auto)]

pub mod answer;
pub mod engine;
pub mod frame;
pub mod machine;
