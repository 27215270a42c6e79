/// Where a datum begins: a line and a column, both from 1, columns in bytes.
/// It belongs to the source, or to the library.
#[derive(Clone, Copy, Debug, PartialEq, Eq)]
pub struct Place {
    pub library: bool,
    pub line: u32,
    pub column: u32,
}
