//! The plan of a machine: pages with tags and bits, access lists, counters' owners, and the chart of decisions.
#![tactic(auto)]

pub mod chart;
pub mod draft;
pub mod keyed;
pub mod records;
pub mod tables;
