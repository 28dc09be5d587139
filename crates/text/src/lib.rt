//! The program's text: reads it into a plan, a memory's size and a trace, or refuses it at a line.
#![tactic(auto)]

pub mod job;
pub mod lexer;
pub mod number;
pub mod reading;
mod rows;
pub mod sections;
mod sheet;
pub mod token;
