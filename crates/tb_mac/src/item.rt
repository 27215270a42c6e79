//! Items, of which code is assembled.

use super::{Instr, LiveMap};
use tb_prim::Place;

/// A label, which stands before the next instruction, or an instruction with its live map, and with a place exactly
/// where it can fail. Targets in an instruction are labels.
#[derive(Debug, Drop)]
pub enum Item {
    Label(u32),
    Ins(Instr, LiveMap, Option<Place>),
}
