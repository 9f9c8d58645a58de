//! IP headers and their extensions.

pub mod auth;
pub mod chain;
pub mod ext_places;
pub mod exts;
pub mod exts_slice;
pub mod fragment;
pub mod headers;
mod held;
pub mod ipv4;
pub mod ipv6;
pub mod lax_header;
pub mod payload;
pub mod raw_ext;
pub mod reassembly;
pub mod window;
