use sqlite_items::Boxed;
use tb_prim::{Const, Place, Prim, Row};

/// The number of a variable. Each variable has one binding in the program.
pub type VarId = u32;

/// The number of a lambda expression, in written order, an outer one before its inner ones.
pub type LambdaId = u32;

/// The number of a node, in written order.
pub type Site = u32;

pub type VarRow = Row<VarId>;

pub type LambdaIdRow = Row<LambdaId>;

pub type ExprRow = Row<Expr>;

/// An expression: where it stands, its number, and what it is.
#[cycle(expr)]
#[derive(Debug, Drop)]
pub struct Expr {
    pub place: Place,
    pub site: Site,
    pub core: Core,
}

/// The forms of the core language. A `Prim` has as many operands as its primitive takes.
#[cycle(expr)]
#[derive(Debug, Drop)]
pub enum Core {
    Quote(Const),
    Local(VarId),
    Global(u32),
    Lambda(LambdaId),
    If(Boxed<Expr>, Boxed<Expr>, Boxed<Expr>),
    SetLocal(VarId, Boxed<Expr>),
    SetGlobal(u32, Boxed<Expr>),
    DefGlobal(u32, Boxed<Expr>),
    Let(VarRow, ExprRow, Boxed<Expr>),
    Letrec(VarRow, LambdaIdRow, Boxed<Expr>),
    Seq(ExprRow),
    Call(Boxed<Expr>, ExprRow),
    Prim(Prim, ExprRow),
    Apply(Boxed<Expr>, Boxed<Expr>),
}
