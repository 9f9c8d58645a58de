//! Parts of frames and packets against bytes from outside: the tests of `ether_link`,
//! `ether_ip` and `ether_err`.
#![tactic(auto)]

#[cfg(test)]
mod chains;
#[cfg(test)]
mod errors;
#[cfg(test)]
mod ip_extensions;
#[cfg(test)]
mod ip_headers;
#[cfg(test)]
mod ip_refusals;
#[cfg(test)]
mod link;
#[cfg(test)]
mod transport;
