//! The interpreter of the SPARC machine. `SparcMachine::load` decodes the words of code and lays out the data, `step`
//! and `run` make steps of the definition (`tb_sparc`'s `SparcStep`), and the readers show registers and words.
#![tactic(auto)]

mod arithmetic;
mod cell;
mod data;
mod load;
mod machine;
mod perform;
mod services;
mod state;
#[cfg(test)]
mod tests;

pub use machine::SparcMachine;
pub use tb_macm::{LoadRefusal, Step};
