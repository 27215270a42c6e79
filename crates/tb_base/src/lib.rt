//! What the compiler needs of the world outside: where input comes from, where output goes, and where
//! files are. Each object counts its faults, so that an answer which blames one of them can be checked.
#![tactic(auto)]

mod call_numbers;
mod entries;
mod fault_names;
mod memory_sink;
mod memory_source;
mod memory_store;
mod outside;
mod puts;
mod real_sink;
mod real_source;
mod real_store;
mod slice_source;
mod takes;

pub use memory_sink::MemSink;
pub use memory_source::MemSource;
pub use memory_store::MemStore;
pub use outside::{Failed, LoadFault, SaveFault, Sink, Source, Store};
pub use puts::put_all;
pub use real_sink::RealSink;
pub use real_source::RealSource;
pub use real_store::RealStore;
pub use slice_source::SliceSource;
pub use takes::take_all;

#[cfg(test)]
mod tests;
