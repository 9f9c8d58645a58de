//! Why a part is refused.

pub mod ip;
pub mod ip_auth;
pub mod ip_exts;
pub mod ipv4;
pub mod ipv6;
pub mod ipv6_exts;
pub mod packet;
pub mod tcp;
