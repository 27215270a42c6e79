//! How many words a state of the MAC machine holds. `Walk::new` makes a walk for machines of so many words of memory, and
//! `mac_words` counts the words of a state: the registers, the frames, the globals, the static objects, and the objects
//! that live words, globals and static objects lead to, each once.
#![tactic(auto)]

mod follow;
mod objects;
mod registers;
mod roots;
mod search;
mod stack;
#[cfg(test)]
mod tests;
mod walk;

pub use walk::Walk;
