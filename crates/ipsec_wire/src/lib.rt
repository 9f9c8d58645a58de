//! The headers of IPsec: AH, the authentication header, and ESP, the encapsulating security payload.
#![tactic(auto)]

pub mod ah;
pub mod esp;
pub mod laws;
