//! Liveness in A-normal form: the variables that are free from each block of a body on, each once, in the order of
//! their first use (specs/Live).
#![tactic(auto)]

mod captures;
pub mod examples;
pub mod laws;
mod rows;
mod table;
mod uses;

pub use table::{LiveTable, live, pressure};
