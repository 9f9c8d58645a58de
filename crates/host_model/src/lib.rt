//! What a run means: definitions over lists of events, and their laws. Nothing here has a state or does
//! anything: an id, a due and a message are read off the positions and times of what went before.
#![tactic(auto)]

pub mod held;
pub mod laws;
pub mod neighbor;
pub mod query_line;
pub mod words;

pub use held::Held;
pub use neighbor::Neighbor;
pub use query_line::{Outcome, QueryLine};
pub use words::EventWords;
