//! A-normal form.

ghost use Rattle.tb_ir.specs.AnfPlain.{plain_anf};
ghost use Rattle.tb_ir.specs.AnfRules.{KeepsRules};

use sqlite_items::Boxed;
use tb_core::{LambdaId, LambdaIdRow, Order, VarId, VarRow};
use tb_prim::{Const, NameRow, Place, Prim, Row, StaticRow};

/// What is there without an operation: a constant, or the value of a variable.
#[derive(Debug, Drop)]
pub enum Atom {
    Quote(Const),
    Var(VarId),
}

pub type AtomRow = Row<Atom>;

/// A body: a variable is bound to what an operation gives, procedures are made together and name one another,
/// or the last operation gives the value of the body.
#[cycle(block)]
#[derive(Debug, Drop)]
pub enum Block {
    Bind(VarId, Op, Boxed<Block>),
    CloseAll(VarRow, LambdaIdRow, Boxed<Block>),
    Tail(Op),
}

/// An operation on atoms. Those that can fail, and those that enter a procedure which may not be one, have a
/// place. A `Direct` has the operands of the lambda expression first and the variables that are added to it
/// after them.
#[cycle(block)]
#[derive(Debug, Drop)]
pub enum Op {
    Atom(Atom),
    Global(u32, Place),
    SetGlobal(u32, Atom, Place),
    DefGlobal(u32, Atom),
    Prim(Prim, AtomRow, Place),
    NewCell(Atom),
    CellGet(Atom, Place),
    CellSet(Atom, Atom),
    Close(LambdaId),
    Call(Atom, AtomRow, Place),
    Direct(LambdaId, AtomRow),
    Apply(Atom, Atom, Place),
    Branch(Atom, Boxed<Block>, Boxed<Block>),
}

/// A body with what it may name: a lambda expression, or a top-level form, which has none. The last parameter
/// is the rest parameter where `rest` says so. One that is lifted has the variables that are added to it behind
/// its own parameters, and captures none.
#[derive(Debug, Drop)]
pub struct AnfProc {
    pub lambda: Option<LambdaId>,
    pub lifted: bool,
    pub place: Place,
    pub params: VarRow,
    pub rest: bool,
    pub captured: VarRow,
    pub body: Block,
}

pub type ProcRow = Row<AnfProc>;

/// A whole program: the names of its globals, its constants, the order of operands that it was made by, and its
/// bodies, first those of the top-level forms in written order and then those of the lambda expressions in the
/// order of their numbers. Its type keeps the rules of `KeepsRules`.
#[derive(Debug, Drop)]
pub struct Anf {
    pub globals: NameRow,
    pub statics: StaticRow,
    pub order: Order,
    pub procs: ProcRow,
    pub ghost rules: { ∥ KeepsRules (plain_anf globals statics order procs) ∥₁ },
}
