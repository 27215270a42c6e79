//! The passes from the core language to code of the MAC machine, one after another: `code_of_program` makes the code of a
//! program, which `Passes` names; `laws` says what it keeps.
#![tactic(auto)]

mod chain;
pub mod laws;

pub use chain::code_of_program;
