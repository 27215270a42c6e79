//! What waits for the value of a block.
use tb_mac::BitRow;

/// What a value in RESULT goes to: the caller, the top level, or the slot of a variable, behind which the code goes on
/// at a label with these slots live.
#[derive(Debug, Drop)]
pub(crate) enum Ending {
    ToCaller,
    ToTop,
    Then(u32, u32, BitRow),
}

/// What waits for the value of a block, and the slots that are live where it comes.
#[derive(Debug, Drop)]
pub(crate) struct Waiting {
    pub slots: BitRow,
    pub ending: Ending,
}
