//! Laws of space: how many words a state of the MAC machine holds by its shape, and, for the code of a program, by the
//! space of the reference machine; and when its memory is full. All stand in `laws`.
#![tactic(auto)]

pub mod laws;
