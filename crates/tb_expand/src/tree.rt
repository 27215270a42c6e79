//! Trees of the core language without numbers.
use super::name::Variable;
use sqlite_items::Boxed;
use tb_prim::{Place, Prim, Row};
use tb_sexp::Node as DatumNode;

/// A node: the place of the form that it comes from, and what it is.
#[cycle(tree)]
#[derive(Debug, Drop)]
pub struct Node<'a> {
    pub place: Place,
    pub core: Core<'a>,
}

/// The forms of the core language, without numbers.
#[cycle(tree)]
#[derive(Debug, Drop)]
pub enum Core<'a> {
    Constant(&'a DatumNode),
    Unspecified,
    Undefined,
    Local(Variable<'a>),
    Global(&'a [u8]),
    Lambda(Row<Variable<'a>>, Option<Variable<'a>>, Boxed<Node<'a>>),
    If(Boxed<Node<'a>>, Boxed<Node<'a>>, Boxed<Node<'a>>),
    SetLocal(Variable<'a>, Boxed<Node<'a>>),
    SetGlobal(Place, &'a [u8], Boxed<Node<'a>>),
    DefGlobal(&'a [u8], Boxed<Node<'a>>),
    Let(Row<Variable<'a>>, Row<Node<'a>>, Boxed<Node<'a>>),
    Letrec(Row<Variable<'a>>, Row<Node<'a>>, Boxed<Node<'a>>),
    Seq(Row<Node<'a>>),
    Call(Boxed<Node<'a>>, Row<Node<'a>>),
    Prim(Prim, Row<Node<'a>>),
    Apply(Boxed<Node<'a>>, Boxed<Node<'a>>),
}
