//! Dissection of packets that may be cut or damaged: every header that is there, and what stopped the
//! dissection.
#![tactic(auto)]

mod agreement;
pub mod ether_payload;
pub mod examples;
mod found;
mod headers;
pub mod ip;
pub mod ipv4;
pub mod ipv6;
pub mod laws;
pub mod link_ext;
pub mod macsec;
pub mod net;
mod nets;
pub mod note;
pub mod noted;
pub mod packet_headers;
pub mod payload;
mod read_part;
mod sliced;
pub mod sliced_packet;
pub mod step;
mod stops;
mod walk;

pub use agreement::agrees;
pub use ether_ip::LaxIpPayloadSlice;
pub use ether_ip::err::ip::LaxHeaderSliceError;
pub use ether_payload::LaxEtherPayloadSlice;
pub use ip::LaxIpSlice;
pub use ipv4::LaxIpv4Slice;
pub use ipv6::LaxIpv6Slice;
pub use link_ext::LaxLinkExtSlice;
pub use macsec::{LaxMacsecPayloadSlice, LaxMacsecSlice};
pub use net::LaxNetSlice;
pub use note::{FrameNote, NetKind, TransportKind, note_of};
pub use noted::{Ipv4Datagram, NotedFrame, packet_and_note};
pub use packet_headers::LaxPacketHeaders;
pub use payload::LaxPayloadSlice;
pub use sliced_packet::LaxSlicedPacket;
pub use step::{NextLayer, Part, next_layer};
