//! Closed examples of what goes into a run and comes out of it, as calls without a body. Each has its expected value from a
//! standard or from `docs/FORMATS.md`, so that one slip made in a definition and in the body that meets it is refused here.
#![tactic(auto)]

pub mod reports;
pub mod runs;
