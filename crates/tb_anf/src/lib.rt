//! A-normal form: each operation of a program is bound once, in the order in which operands are evaluated. The
//! definition is `NormalForm`, `normal_procs` computes the procs, and `normalise` a whole program; `laws` says what a
//! program in A-normal form keeps, with the definition `Wider`.
#![tactic(auto)]

mod captures;
mod examples;
pub mod kept;
pub mod laws;
mod lines;
mod normal;
mod pass;
mod program;
mod steps;

pub use examples::{worked_forms, worked_programs};
pub use normal::normal_procs;
pub use program::normalise;
