//! The plain code of programs in A-normal form, as tb_codegen's `PlainCode` defines it.
#![tactic(auto)]

mod bits;
mod blocks;
mod body;
mod entries;
mod free;
mod generator;
mod groups;
mod homes;
pub mod laws;
mod operations;
mod parts;
mod program;
mod put;
mod waiting;
mod words;

pub use generator::generate;
