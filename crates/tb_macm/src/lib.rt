//! The interpreter of the MAC machine. `MacMachine::load` lays out the globals and the static objects of code,
//! `step` and `run` make steps of the definition (`tb_mac`'s `MacStep`), and the readers show the words.
#![tactic(auto)]

mod answer;
mod arithmetic;
mod calls;
mod layout;
mod load;
mod machine;
mod objects;
mod perform;
mod ports;
mod primitives;
mod state;
mod step;
#[cfg(test)]
mod tests;

pub use load::LoadRefusal;
pub use machine::MacMachine;
pub use step::Step;
