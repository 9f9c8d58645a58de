//! Errors that take in all others of the parts of a frame: of slices, and of readers, with the errors of
//! readers and their faults as plain values.
#![tactic(auto)]

mod from_header;
mod from_slice;
mod from_slice_error;
mod io_fault;
pub mod ip;
pub mod ip_auth;
pub mod ipv4;
pub mod ipv6;
pub mod ipv6_exts;
pub mod linux_sll;
pub mod macsec;
mod read_error;
mod read_header;
mod read_reader;
mod read_slice;
pub mod tcp;

pub use from_slice_error::FromSliceError;
pub use io_fault::{IoFault, IoKind};
pub use read_error::ReadError;
