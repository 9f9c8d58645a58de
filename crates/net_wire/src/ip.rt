//! What is said of a datagram of either version of IP.
use crate::{IpAddress, IpProtocol};

/// A header of either version.
#[derive(Clone, Copy, Debug, PartialEq, Eq)]
pub struct IpRepr {
    pub src_addr: IpAddress,
    pub dst_addr: IpAddress,
    pub next_header: IpProtocol,
    /// The bytes after the header.
    pub payload_len: usize,
    /// The time to live, or the hop limit.
    pub hop_limit: u8,
}
