//! The scrubbed run: where each word that a live map does not name is replaced by a mark before each step, code makes the
//! same steps, emits the same events and comes to the same stop, so the maps hide nothing that is read later. It stands in
//! `laws`; the definition of the run in tb_mac's `Scrubbed`.
#![tactic(auto)]

pub mod laws;
