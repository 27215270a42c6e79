use sqlite_items::Boxed;
use tb_prim::{Bytes, Place, Row};

pub type DatumRow = Row<Datum>;

/// A datum, and where it begins.
#[cycle(datum)]
#[derive(Debug, Drop)]
pub struct Datum {
    pub place: Place,
    pub node: Node,
}

/// What a datum is. The number of a `Name` is its alias, and 0 is a name as written. A `List` has at least
/// one element; its tail, if any, is neither a `List` nor `Nil`. What is read has no other lists, names of 1
/// to 255 bytes, and fixnums alone.
#[cycle(datum)]
#[derive(Debug, Drop)]
pub enum Node {
    Nil,
    Bool(bool),
    Fix(i32),
    Char(u8),
    Str(Bytes),
    Name(Bytes, u32),
    List(DatumRow, Option<Boxed<Datum>>),
    Vector(DatumRow),
}
