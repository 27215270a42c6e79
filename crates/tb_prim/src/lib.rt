//! The names that every part of the compiler shares: places, causes, events, constants and primitives.
#![tactic(auto)]

mod bytes;
mod constant;
mod copies;
mod event;
mod fixnum;
mod names;
mod no_memory;
mod place;
mod primitive;
mod row;

pub use bytes::Bytes;
pub use constant::{Const, ConstRow, GlobalName, NameRow, Static, StaticRow};
pub use copies::{copy_names, copy_statics};
pub use event::{Cause, Event, Stop, Taken};
pub use fixnum::{GREATEST_FIXNUM, LEAST_FIXNUM, is_fixnum};
pub use names::prim_of;
pub use no_memory::NoMemory;
pub use place::Place;
pub use primitive::{Primitive as Prim, arity, number_of};
pub use row::Row;
