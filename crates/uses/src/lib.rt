//! Callers of the libraries as their users would write them, each proved from the clauses of the
//! calls that it makes, with no proof file.
#![tactic(auto)]

pub mod arriving;
pub mod captures;
pub mod cuts;
pub mod dissection;
pub mod disturbing;
pub mod granting;
pub mod headers;
pub mod ipsec;
pub mod layers;
pub mod leases;
pub mod links;
pub mod printing;
pub mod queries;
pub mod rules;
pub mod runs;
pub mod scripts;
pub mod serving;
pub mod steps;
pub mod sums;
pub mod texts;
