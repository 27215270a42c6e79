//! Assignment elimination: each variable that is assigned becomes a cell. The program with cells is a function of
//! the source, `cells_of` in `specs/Eliminate`, and `eliminate` computes it; `laws` says what it keeps.
#![tactic(auto)]

mod elimination;
mod examples;
pub mod laws;
mod targets;

pub use elimination::eliminate;
pub use examples::{worked_cells, worked_programs, worked_trees};
