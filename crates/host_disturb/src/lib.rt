//! Runs over a bad link: frames are dropped on their way in, or have a bit flipped, by the fault rule.
#![tactic(auto)]

mod disturbed_run;
mod disturber;
mod fault_values;
pub mod laws;

pub use disturbed_run::{run_disturbed, watch_disturbed};
pub use disturber::Disturber;
pub use fault_values::FaultValues;
