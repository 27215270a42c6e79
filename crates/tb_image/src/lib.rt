//! Images: the bytes that a compiled program is stored as. So far their format, as a definition, and its laws.
#![tactic(auto)]

pub mod examples;
pub mod laws;
