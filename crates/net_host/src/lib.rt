//! The host: it reads a script of events, and answers each as the definitions of `host_model` say.
#![tactic(auto)]

mod arrived;
mod clients;
pub mod config;
mod emitter;
pub mod handle_error;
mod hops;
pub mod host;
pub mod laws;
mod moments;
mod neighbors;
mod queries;
pub mod report;
pub mod run_script;
pub mod watcher;

pub use config::{HostConfig, HostConfigError, HostValues};
pub use handle_error::HandleError;
pub use host::{Host, no_queries};
pub use host_model::{EventWords, Neighbor, Outcome, QueryLine};
pub use report::{Kind, LineList, Mark, Report, Row, Sent, SentList};
pub use run_script::{RunError, run, run_over};
pub use script_reader::{
    Direct, EventHead, EventKind, EventReader, Link, ReadEventError, ScriptEvent,
};
pub use script_source::{MemorySource, ReadFault, ReadSource, ScriptSource, SureSource};
pub use watcher::{Silent, Watcher};
