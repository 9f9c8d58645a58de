//! A DHCP server for those who test clients (RFC 2131, section 4.3): it never gives one address to two clients.
#![tactic(auto)]

pub mod examples;
pub mod laws;
mod lease;
mod marks;
mod messages;
mod replies;
mod reply;
mod server;
mod values;

pub use lease::Lease;
pub use reply::{Reply, Silence};
pub use server::Server;
pub use values::{ServerError, ServerValues};
