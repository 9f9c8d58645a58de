//! Clients over an emitter that remembers, with messages as servers write them: the tests of `dhcp_client`.
#![tactic(auto)]

#[cfg(test)]
mod clients;
#[cfg(test)]
mod lives;
