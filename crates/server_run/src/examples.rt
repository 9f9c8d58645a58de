//! Closed examples of the definitions, proved by computing.
ghost use Rattle.server_run.specs.Examples.{ArpByExample, RunsByExample};

/// Two runs of a server with one address: offers and leases end at their instants.
pub fn runs_by_example()
    ensures { RunsByExample }
{}

/// An ARP request for the server's address, with its reply, and what is not answered.
pub fn arp_by_example()
    ensures { ArpByExample }
{}
