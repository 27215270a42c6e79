//! Tests of the measures of the core language: worked rows over trees.
#![tactic(auto)]

pub mod programs;
#[cfg(test)]
mod tests;
pub mod trees;
pub mod worked;
