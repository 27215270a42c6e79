//! The languages between the core language and the code of the MAC machine: the core language with cells, the
//! same with lambda expressions that are lifted, and A-normal form. What their programs mean is one machine of
//! values, in `specs/Machine`, with the rules of each syntax beside it.
#![tactic(auto)]

mod anf;
mod cells;
mod examples;
pub mod laws;
mod programs;

pub use anf::{Anf, AnfProc, Atom, AtomRow, Block, Op, ProcRow};
pub use cells::{CellCore, CellExpr, CellExprRow, CellLambda, CellLambdaRow};
pub use examples::{worked_programs, worked_rules, worked_shapes, worked_widths};
pub use programs::{CellProgram, Lifted};
