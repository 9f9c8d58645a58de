//! DNS messages (RFC 1035, section 4).
mod dns_type;
mod flags;
mod name;
mod packet;
mod query;
mod question;
mod record;

pub use dns_type::DnsType;
pub use flags::HeaderFlags;
pub use name::{Labels, name_len};
pub use packet::Packet;
pub use query::Repr;
pub use question::Question;
pub use record::{Record, RecordData};
