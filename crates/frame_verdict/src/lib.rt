//! Why a frame counts with a host, or does nothing: the first reason that fits, as a definition over the events before it, and the
//! theorem that a frame which is ignored does what a tick does.
#![tactic(auto)]

pub mod frame;
pub mod laws;
pub mod message;
pub mod verdict;

pub use frame::brought;
pub use message::{Listener, verdict_of_message};
pub use verdict::{Reason, Verdict};
