//! Both dissectors against frames from outside: the tests of `ether_lax`.
#![tactic(auto)]

#[cfg(test)]
mod cooked;
#[cfg(test)]
mod cuts;
#[cfg(test)]
mod frames;
#[cfg(test)]
mod kinds;
#[cfg(test)]
mod refusals;
#[cfg(test)]
mod rows;
#[cfg(test)]
mod sources;
#[cfg(test)]
mod stops;
