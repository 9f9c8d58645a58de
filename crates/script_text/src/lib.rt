//! Scripts as text that people read and write: a line an event.
#![tactic(auto)]

mod captured;
pub mod examples;
pub mod laws;
mod line;
mod showing;
pub mod words;

pub use captured::frames;
pub use line::event_text;
pub use showing::{ShowError, show};
