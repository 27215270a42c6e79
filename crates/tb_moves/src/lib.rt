//! Parallel assignment: many moves between locations, done as one, ordered as single moves.
#![tactic(auto)]

mod list;
mod loc;
mod order;
mod path;

pub use list::MoveList;
pub use loc::Loc;
pub use order::order_moves;

#[cfg(test)]
mod tests;
