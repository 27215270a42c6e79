//! Tests that cross crates: worked rows over a store, a source and sinks in memory.
#![tactic(auto)]

#[cfg(test)]
mod definitions;
#[cfg(test)]
mod examples;
#[cfg(test)]
mod programs;
#[cfg(test)]
mod reports;
#[cfg(test)]
mod tests;
