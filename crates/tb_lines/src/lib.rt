//! Lines of text for a sink: `put_parts` puts the parts of one, one after another. `specs/Lines` says what they come to.
#![tactic(auto)]

mod parts;

pub use parts::put_parts;
