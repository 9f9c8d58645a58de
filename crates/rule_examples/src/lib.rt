//! Closed examples of the rules that the libraries cite, as calls without a body. Each has its expected value from
//! the standard, so that one slip made in a definition and in the body that meets it is refused here.
#![tactic(auto)]

pub mod addresses;
pub mod captures;
pub mod errors;
pub mod headers;
pub mod icmp;
pub mod options;
