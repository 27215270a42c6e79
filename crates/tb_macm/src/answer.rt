//! What a primitive and the walk of a list come to.

use tb_mac::Word;
use tb_prim::Cause;

/// What a primitive of operands comes to: a word; a new pair, a new vector or a new string of so many
/// characters; a word of the heap that changes; a failure; or no next step.
#[derive(Clone, Copy, Debug, PartialEq, Eq)]
pub enum Answer {
    Gives(Word),
    Pair(Word, Word),
    Vector(u32),
    Text(u32),
    Changes(usize, Word),
    Fails(Cause),
    NoNextStep,
}

/// What the walk of a list comes to: so many elements, a failure, or a word that is not there.
#[derive(Clone, Copy, Debug, PartialEq, Eq)]
pub enum Walk {
    Elements(u8),
    NoList(Cause),
    NoWord,
}
