//! The MAC machine: its words, its instructions, its code with the rules that it keeps, and what its steps do.
#![tactic(auto)]

mod assembler;
mod bounds;
mod code;
mod copy;
pub mod examples;
mod fields;
mod immediate;
mod item;
pub mod laws;
mod lookup;
mod numbers;
mod refusal;
mod word;

pub use assembler::assemble;
pub use bounds::{frame_bound, space_bound, window_bound};
pub use code::{
    BitRow, EntryRow, IndexRow, Instr, InstrRow, LambdaEntry, LiveMap, MacCode, MapRow, OrderEntry,
    OrderRow, Parts, PlaceEntry, PlaceRow,
};
pub use fields::instr_ok;
pub use immediate::{immediate_bits, immediate_word};
pub use item::Item;
pub use lookup::{fetch, place_of};
pub use numbers::primitive_at;
pub use refusal::AsmRefusal;
pub use word::{Placed, Word, is_false, same_word};
