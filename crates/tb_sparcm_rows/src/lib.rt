//! Worked rows of the SPARC machine: small sequences of words, which GNU's assembler made, and what they come to.
#![tactic(auto)]

#[cfg(test)]
mod code;
#[cfg(test)]
mod operations;
#[cfg(test)]
mod runs;
#[cfg(test)]
mod services;
#[cfg(test)]
mod transfers;
