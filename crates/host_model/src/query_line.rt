//! What a report says of a query.

use arrayvec::ArrayVec;
use dns_client::StartQueryError;
use net_wire::IpAddress;

/// What became of a query.
#[derive(Clone, Debug, Drop, PartialEq, Eq)]
pub enum Outcome {
    /// It was not started.
    Refused(StartQueryError),
    /// A response gave these addresses.
    Answered(ArrayVec<IpAddress, 4>),
    /// A response gave none, or no server answered in time.
    Failed,
}

/// A query that was refused or that ended in an event.
#[derive(Clone, Debug, Drop, PartialEq, Eq)]
pub struct QueryLine {
    /// The number of query events before the one that asked.
    pub query: u32,
    pub outcome: Outcome,
}
