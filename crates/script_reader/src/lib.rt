//! Reads the events of a script, one behind the other, and says where and why one is refused.
#![tactic(auto)]

pub mod event_reader;
pub mod link;
pub mod script;

pub use event_reader::EventReader;
pub use link::{Direct, Link};
pub use script::{EventHead, EventKind, ReadEventError, ScriptEvent};
