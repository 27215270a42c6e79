//! Runs of machines, told by their steps and events, what it is that one machine keeps another, and graphs. This crate
//! has no code but laws: what it states once is cited by every machine and every pass above it.
#![tactic(auto)]

pub mod graphs;
pub mod keeping;
pub mod runs;
