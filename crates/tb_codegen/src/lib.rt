//! Plain code for the MAC machine from programs in A-normal form. The definition is `PlainCode`.
#![tactic(auto)]

mod examples;
pub mod laws;

pub use examples::{worked_programs, worked_requests};
