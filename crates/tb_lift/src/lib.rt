//! Lambda lifting: the lambda expressions of a set are called directly, with the variables that they name as further
//! operands. So far the definition alone (specs/Lift), with small programs that are lifted.
#![tactic(auto)]

pub mod examples;
