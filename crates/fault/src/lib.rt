//! What every refusal of the runtime tells: its number, its layer, the place, and a cause.
#![tactic(auto)]

pub mod display;
pub mod level;
pub mod refusal;
pub mod report;
