use super::{Bytes, Row};

/// The name of a global variable, and whether the library defines it.
#[derive(Debug, Drop)]
pub struct GlobalName {
    pub library: bool,
    pub name: Bytes,
}

pub type NameRow = Row<GlobalName>;

/// A constant. `Stat` is the number of a static object. `Undefined` stands in variables that have no
/// value yet, and no expression yields it.
#[derive(Clone, Copy, Debug, PartialEq, Eq)]
pub enum Const {
    Fix(i32),
    Char(u8),
    Bool(bool),
    Nil,
    Unspecified,
    Undefined,
    Stat(u32),
}

pub type ConstRow = Row<Const>;

/// An object that is there from the start: a quoted pair, vector, string or symbol.
#[derive(Debug, Drop)]
pub enum Static {
    Pair(Const, Const),
    Vector(ConstRow),
    Str(Bytes),
    Sym(Bytes),
}

pub type StaticRow = Row<Static>;
