//! Instructions, live maps, and code with its parts.

ghost use Rattle.tb_mac.specs.Rules.{KeepsRules};

use tb_prim::{NameRow, Place, Row, StaticRow};

/// An instruction. Registers are 0 to 16, where 16 is RESULT; fields stand in the order: registers or
/// numbers, then a slot, an index, an instruction, a global, a static object, a primitive or 32 bits.
#[derive(Clone, Copy, Debug, PartialEq, Eq)]
pub enum Instr {
    /// The entry of the lambda with this number.
    Proc(u32),
    /// RESULT is this number of operands.
    Args(u8),
    /// RESULT is this number of operands or more, of which the further ones become a list.
    ArgsGe(u8),
    /// A frame of so many slots.
    Save(u32),
    /// The return word of the frame on top becomes this instruction's place.
    SetRtn(u32),
    /// The register gets the slot.
    Load(u8, u32),
    /// The slot gets the register.
    Store(u8, u32),
    /// Takes away the frame on top, which has so many slots.
    Pop(u32),
    /// Goes on at the return word of the frame on top.
    Return,
    /// Enters the procedure in register 0 with so many operands.
    Invoke(u8),
    Jump(u32),
    /// Goes on at the instruction where the register is false.
    Brf(u8, u32),
    /// The register gets the fixnum, special or character of these 32 bits.
    Imm(u8, u32),
    /// The register gets the pointer with this tag to the static object.
    Stat(u8, u8, u32),
    Move(u8, u8),
    GlobalGet(u8, u32),
    GlobalSet(u8, u32),
    GlobalDef(u8, u32),
    /// The first register gets a new cell that holds the second.
    Cell(u8, u8),
    CellGet(u8, u8),
    /// The cell in the first register holds the second.
    CellSet(u8, u8),
    /// The register gets a new procedure with so many captured words and this entry.
    Clo(u8, u16, u32),
    /// The first register gets the captured word of the procedure in the second.
    Capt(u8, u8, u32),
    /// The captured word of the procedure in the first register becomes the second.
    CaptSet(u8, u8, u32),
    /// Enters the procedure in register 0 with the elements of the list in register 1.
    Apply,
    End,
    Op0(u8, u32),
    Op1(u8, u8, u32),
    Op2(u8, u8, u8, u32),
    /// The primitive of three registers; RESULT becomes unspecified.
    Op3(u8, u8, u8, u32),
}

pub type InstrRow = Row<Instr>;

pub type BitRow = Row<bool>;

pub type IndexRow = Row<u16>;

/// Which registers hold live words, one bit each, and which slots of the procedure's own frame. No slots
/// are given where the frame on top is not its own.
#[derive(Debug, Drop)]
pub struct LiveMap {
    pub regs: u32,
    pub slots: Option<BitRow>,
}

pub type MapRow = Row<LiveMap>;

/// A lambda: its place, whether it is lifted, and the number of its first instruction.
#[derive(Clone, Copy, Debug, PartialEq, Eq)]
pub struct LambdaEntry {
    pub place: Place,
    pub lifted: bool,
    pub entry: u32,
}

pub type EntryRow = Row<LambdaEntry>;

/// The order in which the operands at a place are evaluated.
#[derive(Debug, Drop)]
pub struct OrderEntry {
    pub place: Place,
    pub order: IndexRow,
}

pub type OrderRow = Row<OrderEntry>;

/// The place of an instruction that can fail.
#[derive(Clone, Copy, Debug, PartialEq, Eq)]
pub struct PlaceEntry {
    pub instr: u32,
    pub place: Place,
}

pub type PlaceRow = Row<PlaceEntry>;

/// What code refers to: globals, static objects, lambdas and orders of operands.
#[derive(Debug, Drop)]
pub struct Parts {
    pub globals: NameRow,
    pub statics: StaticRow,
    pub lambdas: EntryRow,
    pub order: OrderRow,
}

/// Code with a live map for each instruction and a place for each that can fail. It keeps the rules that
/// its fields have in an image.
#[derive(Debug, Drop)]
pub struct MacCode {
    pub parts: Parts,
    pub code: InstrRow,
    pub maps: MapRow,
    pub places: PlaceRow,
    pub ghost rules: { ∥ KeepsRules parts code maps places ∥₁ },
}
