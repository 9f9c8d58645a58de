//! Where bytes that are read in pieces come from: the script of a run, or a capture. A source tells how often its reads failed and,
//! where it can, the bytes that are still to come.
#![tactic(auto)]

pub mod filling;
pub mod source;
pub mod sources;

pub use filling::fill;
pub use source::{ReadFault, ScriptSource};
pub use sources::{MemorySource, ReadSource, SureSource};
