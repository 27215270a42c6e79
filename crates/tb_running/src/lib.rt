//! A run of code in a memory of its own, with all of its input in hand: `run_code`. What it leaves, and why it stopped, is
//! `specs/Runs`.
#![tactic(auto)]

mod run;

pub use run::run_code;
