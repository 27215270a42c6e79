//! Whole programs with cells, and with lambda expressions that are lifted.

ghost use Rattle.std.specs.Prelude.{[], ◌^◌};
ghost use Rattle.tb_ir.specs.Plain.{plain_program};
ghost use Rattle.tb_ir.specs.Rules.{KeepsRules};

use super::{CellExprRow, CellLambdaRow};
use tb_core::LiftSet;
use tb_prim::{NameRow, StaticRow};

/// A program in which each variable that is assigned is a cell. It has no `Direct`. Its type keeps the rules of
/// `KeepsRules`, with fewer than 2^27 nodes and numbers of nodes and variables below that.
#[derive(Debug, Drop)]
pub struct CellProgram {
    pub globals: NameRow,
    pub statics: StaticRow,
    pub lambdas: CellLambdaRow,
    pub forms: CellExprRow,
    pub ghost rules: { ∥ KeepsRules (2 ^ 27) (plain_program globals statics lambdas forms []) ∥₁ },
}

/// The same where some lambda expressions are lifted: they are named by `Direct` alone, and the set tells which
/// variables are added to their parameters. Its type keeps the rules of `KeepsRules`, with fewer than 2^31 nodes
/// and numbers of nodes and variables below that.
#[derive(Debug, Drop)]
pub struct Lifted {
    pub globals: NameRow,
    pub statics: StaticRow,
    pub lambdas: CellLambdaRow,
    pub forms: CellExprRow,
    pub set: LiftSet,
    pub ghost rules: { ∥ KeepsRules (2 ^ 31) (plain_program globals statics lambdas forms set) ∥₁ },
}
