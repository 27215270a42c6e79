// The condition codes.

/// The condition codes: whether the last result that set them was negative, was zero, overflowed and carried.
#[derive(Clone, Copy, Debug, PartialEq, Eq)]
pub struct Codes {
    pub negative: bool,
    pub zero: bool,
    pub overflow: bool,
    pub carry: bool,
}
