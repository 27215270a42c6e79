//! The core language and what it means: the types of programs, whose rules stand in specs/Rules; `check`, `width` and
//! `squared_widths` for its limits (specs/Limits, Width), `free_vars` and `operand_order` (specs/FreeVariables,
//! OperandOrder). The reference machine stands in specs/Reference; laws and programs that are run have modules.
#![tactic(auto)]

pub mod examples;
mod expr;
mod free;
pub mod laws;
mod lift_set;
mod limits;
mod order;
mod program;
mod rules;
mod widths;

pub use expr::{Core, Expr, ExprRow, LambdaId, LambdaIdRow, Site, VarId, VarRow};
pub use free::free_vars;
pub use lift_set::{LiftLine, LiftSet};
pub use limits::{CoreRefusal, check};
pub use order::{IndexRow, Order, OrderLine, operand_order};
pub use program::{Lambda, LambdaRow, Program};
pub use rules::{program_keeps_rules, worked_rules};
pub use widths::{squared_widths, width};
