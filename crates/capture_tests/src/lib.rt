//! Captures against rows from outside: the tests of `capture_explain`.
#![tactic(auto)]

#[cfg(test)]
mod captures;
#[cfg(test)]
mod files;
#[cfg(test)]
mod kinds;
