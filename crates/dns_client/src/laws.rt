//! What follows from the definitions.
ghost use Rattle.dns_client.specs.Examples.{ChainsByExample, FaultsByExample};
ghost use Rattle.dns_client.specs.QueryExamples.{LooksByExample, ResponsesByExample};
ghost use Rattle.dns_client.specs.Repeated.{SecondLookChangesNothing};
ghost use Rattle.dns_client.specs.Response.{UndecidedIsUnchanged};
ghost use Rattle.dns_client.specs.Sends.{FourMessages};

/// A response that decides no query leaves every query as it was.
pub fn undecided_is_unchanged()
    ensures { UndecidedIsUnchanged }
{}

/// A second look at the same instant changes nothing, and sends nothing again that was taken. The instant is
/// before the last one, 2^63 - 1 microseconds, and the delay of each query that waits is above 0.
pub fn second_look_changes_nothing()
    ensures { SecondLookChangesNothing }
{}

/// A query sends at most four messages to one place of the list that it asks, by looks whose times never fall
/// and are before the last instant, 2^63 - 1 microseconds.
pub fn four_messages_to_a_place()
    ensures { FourMessages }
{}

/// Names as they are written, and their first faults.
pub fn faults_by_example()
    ensures { FaultsByExample }
{}

/// Addresses along chains of aliases.
pub fn chains_by_example()
    ensures { ChainsByExample }
{}

/// Responses, and what they decide.
pub fn responses_by_example()
    ensures { ResponsesByExample }
{}

/// A query over time.
pub fn looks_by_example()
    ensures { LooksByExample }
{}
