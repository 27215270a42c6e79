//! Expressions of the core language with cells.

use sqlite_items::Boxed;
use tb_core::{LambdaId, LambdaIdRow, Site, VarId, VarRow};
use tb_prim::{Const, Place, Prim, Row};

pub type CellExprRow = Row<CellExpr>;

/// An expression: where it stands, its number, and what it is.
#[cycle(cell_expr)]
#[derive(Debug, Drop)]
pub struct CellExpr {
    pub place: Place,
    pub site: Site,
    pub core: CellCore,
}

/// The forms of the core language, where a variable that is assigned is a cell: one that holds a value is made,
/// read and set. A `Direct` enters a lambda expression that is lifted, with its own operands first and the
/// variables that are added to it after them.
#[cycle(cell_expr)]
#[derive(Debug, Drop)]
pub enum CellCore {
    Quote(Const),
    Local(VarId),
    Global(u32),
    Lambda(LambdaId),
    If(Boxed<CellExpr>, Boxed<CellExpr>, Boxed<CellExpr>),
    NewCell(Boxed<CellExpr>),
    CellGet(Boxed<CellExpr>),
    CellSet(Boxed<CellExpr>, Boxed<CellExpr>),
    SetGlobal(u32, Boxed<CellExpr>),
    DefGlobal(u32, Boxed<CellExpr>),
    Let(VarRow, CellExprRow, Boxed<CellExpr>),
    Letrec(VarRow, LambdaIdRow, Boxed<CellExpr>),
    Seq(CellExprRow),
    Call(Boxed<CellExpr>, CellExprRow),
    Direct(LambdaId, CellExprRow),
    Prim(Prim, CellExprRow),
    Apply(Boxed<CellExpr>, Boxed<CellExpr>),
}

/// A lambda expression: its parameters, and its body.
#[derive(Debug, Drop)]
pub struct CellLambda {
    pub place: Place,
    pub formals: VarRow,
    pub rest: Option<VarId>,
    pub body: CellExpr,
}

pub type CellLambdaRow = Row<CellLambda>;
