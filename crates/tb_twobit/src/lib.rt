//! The top call, `twobit`, which does all that the program does, and `compile`, from a text to code. What they promise
//! stands in specs/CommandDoes and specs/Refusals; laws say that each text has one answer,
//! and what each run of its code keeps.
#![tactic(auto)]

mod compiling;
mod go;
pub mod laws;
mod limits;
mod lines;
mod prepare;
mod refusal;
mod run;
mod space;
mod status;
mod top;
mod words;

pub use compiling::compile;
pub use refusal::{CompileRefusal, Refusal, RefusalKind};
pub use status::Status;
pub use top::twobit;
