//! Scripts, the frames of queries, the capture of one tick and made events, as calls without a body.
ghost use Rattle.run_examples.specs.MadeEvents.{MadeByExample};
ghost use Rattle.run_examples.specs.OneTick.{OneTickByExample};
ghost use Rattle.run_examples.specs.QueryFrames.{QueriesByExample};
ghost use Rattle.run_examples.specs.ScriptBytes.{RunNumbers, ScriptByExample};

/// The bytes of each kind of event.
pub fn scripts_by_example()
    ensures { ScriptByExample }
{}

/// The bound of times, and the words of an event.
pub fn run_numbers()
    ensures { RunNumbers }
{}

/// The frames of a query to a name server and of one to the group of multicast DNS (RFC 1035, section 4; RFC 6762, section 3).
pub fn queries_by_example()
    ensures { QueriesByExample }
{}

/// What one tick lists and captures (RFC 2131, table 5).
pub fn one_tick_by_example()
    ensures { OneTickByExample }
{}

/// Events of a made script.
pub fn made_by_example()
    ensures { MadeByExample }
{}
