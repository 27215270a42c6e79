//! Which lambda expressions of a program are lifted: those that are known at each of their calls, and that have at
//! most twelve parameters together with the variables that are added to them (specs/Liftable). `liftable` finds them,
//! with these variables.
#![tactic(auto)]

mod added;
pub mod examples;
pub mod laws;
mod mentions;
mod procedures;
mod sets;

pub use sets::liftable;
