//! The sources: bytes in memory, and a reader.

mod memory;
mod reader;
mod sure;

pub use memory::MemorySource;
pub use reader::ReadSource;
pub use sure::SureSource;
