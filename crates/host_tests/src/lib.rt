//! Whole runs against bytes and texts from outside, faults of the outside, and callers: the tests of `net_host`, `host_top` and
//! `uses`.
#![tactic(auto)]

#[cfg(test)]
mod caller_packets;
#[cfg(test)]
mod caller_queries;
#[cfg(test)]
mod callers;
#[cfg(test)]
mod calls;
#[cfg(test)]
mod disturbed;
#[cfg(test)]
mod explained;
#[cfg(test)]
mod faults;
#[cfg(test)]
mod files;
#[cfg(test)]
mod frames;
#[cfg(test)]
mod fuzzed;
#[cfg(test)]
mod links;
#[cfg(test)]
mod live;
#[cfg(test)]
mod lives;
#[cfg(test)]
mod lookups;
#[cfg(test)]
mod made;
#[cfg(test)]
mod outside;
#[cfg(test)]
mod plain;
#[cfg(test)]
mod printed;
#[cfg(test)]
mod queries;
#[cfg(test)]
mod replies;
#[cfg(test)]
mod responses;
#[cfg(test)]
mod runs;
#[cfg(test)]
mod served;
#[cfg(test)]
mod shown;
#[cfg(test)]
mod texts;
#[cfg(test)]
mod words;
