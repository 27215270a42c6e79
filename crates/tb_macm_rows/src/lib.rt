//! Worked rows of the MAC machine: small codes, written as text, and what the machine that runs them comes to. The
//! expected words are those of the machine's definition, worked out by hand.
#![tactic(auto)]

#[cfg(test)]
mod code;
#[cfg(test)]
mod instructions;
#[cfg(test)]
mod kinds;
#[cfg(test)]
mod labels;
#[cfg(test)]
mod memory;
#[cfg(test)]
mod ports;
#[cfg(test)]
mod primitives;
#[cfg(test)]
mod runs;
#[cfg(test)]
mod text;
