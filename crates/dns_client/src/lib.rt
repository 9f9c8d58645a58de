//! A DNS client that takes an answer from the server it asked and from no one else (RFC 1035, section 7; mDNS
//! by RFC 6762, section 5.1).
#![tactic(auto)]

mod answer;
mod dispatch;
mod emit;
mod error;
pub mod laws;
mod look;
mod name;
mod query;
mod response;
mod slots;
mod socket;
mod start;

pub use emit::DnsEmit;
pub use error::{GetQueryResultError, StartQueryError};
pub use name::name_bytes;
pub use query::{DnsQuery, MulticastDns, QueryHandle};
pub use socket::Socket;
