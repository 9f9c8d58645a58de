//! Closed examples of the definitions, proved by computing.
ghost use Rattle.lease_server.specs.Examples.{LeasesByExample, OffersByExample, RowsByExample};

/// An offer ends after 60 s, at its instant; the lowest free address; a full range.
pub fn offers_by_example()
    ensures { OffersByExample }
{}

/// A lease ends at its instant, and an offer does not make it shorter.
pub fn leases_by_example()
    ensures { LeasesByExample }
{}

/// The other replies, and what a release frees.
pub fn rows_by_example()
    ensures { RowsByExample }
{}
