//! Captures laid open: a capture file goes in, and a row comes out for each of its frames.
#![tactic(auto)]

mod dissecting;
pub mod entry_reader;
mod error;
pub mod examples;
mod explaining;
mod explanation;
pub mod laws;
mod layers;
mod parts;
mod printing;
mod row_text;
mod seen;
pub mod text;

pub use dissecting::{Dissection, dissect};
pub use error::ExplainError;
pub use explaining::explain;
pub use explanation::{ExplainRow, Explanation};
pub use parts::{AhList, AhPart, EspPart, Part, PartKind, PartList};
pub use printing::print_capture;
pub use row_text::explain_text;
