//! The sinks of this crate.
pub mod memory;
pub mod sure;
pub mod writer;

pub use memory::MemorySink;
pub use sure::SureSink;
pub use writer::WriteSink;
