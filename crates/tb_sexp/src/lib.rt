//! Data as they are written: `read_all` gives what a text spells or its first refusal, and `print_datum` the one printed
//! text of a datum. The grammar stands in specs/Texts, what data keep in specs/DatumRules; laws and rows that compute
//! have modules of their own.
#![tactic(auto)]

mod atoms;
mod datum;
pub mod examples;
mod frames;
pub mod grammar_laws;
pub mod laws;
mod lexer;
mod numbers;
mod parser;
pub mod print_laws;
mod printer;
mod reader;
mod refusal;
mod scan;
mod stack;
mod strings;
mod tails;
mod token;

pub use datum::{Datum, DatumRow, Node};
pub use printer::print_datum;
pub use reader::read_all;
pub use refusal::ReadRefusal;
