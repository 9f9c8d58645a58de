//! The DHCP client (RFC 2131): when it sends which message, and what it makes of the answers.
#![tactic(auto)]

pub mod config;
pub mod emit;
pub mod event;
pub mod examples;
mod heard;
pub mod laws;
mod messages;
mod packet;
mod plan;
mod planning;
pub mod retry;
pub mod socket;
pub mod state;
mod times;

pub use config::ClientConfig;
pub use emit::DhcpEmit;
pub use event::{Config, Event};
pub use heard::prefix_of;
pub use retry::RetryConfig;
pub use socket::Socket;
pub use state::{ClientState, Lease, ServerInfo};
