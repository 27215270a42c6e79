//! A report of a run: `report_run` runs code as `tb_running` does, but puts, in place of what the program puts, a line of the
//! words that the machine holds at each so many events, and at the end the most of these. `specs/Reports` says what it puts.
#![tactic(auto)]

mod lines;
mod meter;
mod nothing;
mod report;

pub use report::report_run;
