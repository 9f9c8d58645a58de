//! Scripts that are made by the words of a run: what a host would meet that is reset again and again, is leased an
//! address each time, and asks for a name.
#![tactic(auto)]

mod event;
pub mod laws;
mod script;
mod server;

pub use script::make_script;
pub use server::HOST_STATION;
