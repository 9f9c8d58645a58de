//! Callers of `managed`, proved from its clauses alone, and its tests: cases from managed 0.8, and stores of a
//! million places.
#![tactic(auto)]

pub mod callers;
#[cfg(test)]
mod maps;
#[cfg(test)]
mod ranges;
#[cfg(test)]
mod slots;
#[cfg(test)]
mod storage;
