//! What follows from the definitions.
ghost use Rattle.lease_server.specs.Calls.{IsAsCalled};
ghost use Rattle.lease_server.specs.Laws.{FreeIsLowest, FullIsExact, TakenIsHeld};
ghost use Rattle.lease_server.specs.Messages.{ReadsReplies};

/// A new server is as no call says, and stays as the list of calls says: who holds what, and each reply, are
/// functions of the calls.
#[tactic(auto, using(crate::proofs::CallLemmas::is_as_called))]
pub fn a_server_is_as_called()
    ensures { IsAsCalled }
{}

/// The free address that is offered is the lowest one of the range that nobody holds.
pub fn the_free_address_is_the_lowest()
    ensures { FreeIsLowest }
{}

/// `Full` comes exactly to a discover of a client that holds nothing, where each address of the range is held.
#[tactic(auto, using(crate::proofs::LawLemmas::full_is_exact))]
pub fn full_comes_where_each_is_held()
    ensures { FullIsExact }
{}

/// An address is taken exactly where some client holds it.
#[tactic(auto, using(crate::proofs::LawLemmas::taken_is_held))]
pub fn taken_is_held()
    ensures { TakenIsHeld }
{}

/// The message of a reply is read from its bytes as that message again.
#[tactic(auto, using(crate::proofs::ReadLemmas::reads_replies))]
pub fn messages_are_read()
    ensures { ReadsReplies }
{}
