//! Laws of the reference machine: what its states name. `laws` has them: each location that a state has is one of an item,
//! and no environment binds a variable twice. The words are in specs/Locations and specs/Environments; `examples` has states.
#![tactic(auto)]

pub mod examples;
pub mod laws;
