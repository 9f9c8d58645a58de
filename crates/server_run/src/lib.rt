//! A DHCP server that serves a script of events: it answers each as it is read, reports it and captures the
//! frames.
#![tactic(auto)]

mod answering;
mod asking;
pub mod examples;
mod frames;
pub mod report;
pub mod serve_error;
pub mod serving;
mod storage;
pub mod watcher;

pub use report::{Answered, ServeReport, ServeRow};
pub use serve_error::ServeError;
pub use serving::{serve, serve_over};
pub use watcher::ServeWatcher;
