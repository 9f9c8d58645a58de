//! Messages, frames, captures, layers and queries against values from outside: the tests of `net_wire`,
//! `ipsec_wire`, `phy_layers` and `dns_client`.
#![tactic(auto)]

#[cfg(test)]
mod captures;
#[cfg(test)]
mod dhcp_messages;
#[cfg(test)]
mod dns_messages;
#[cfg(test)]
mod frames;
#[cfg(test)]
mod ipsec;
#[cfg(test)]
mod layers;
#[cfg(test)]
mod printing;
#[cfg(test)]
mod resolver;
#[cfg(test)]
mod writers;
