//! The capture of a run is a capture file of its frames: theorems that join the host to the reader of captures.
#![tactic(auto)]

pub mod laws;
mod memory_run;

pub use memory_run::{ExplainedRun, ExplainedRunError, explained_run};
