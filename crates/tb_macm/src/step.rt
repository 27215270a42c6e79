//! What a step came to.

use tb_prim::{Event, Stop};

/// What a step came to: it was made, with an event or none, or it was not, and why.
#[derive(Clone, Copy, Debug, PartialEq, Eq)]
pub enum Step {
    Went(Option<Event>),
    Stopped(Stop),
}
