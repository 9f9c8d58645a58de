//! Closed examples of the definitions, proved by computing.
ghost use Rattle.dhcp_client.specs.Examples.{MasksByExample, MessagesByExample, PlansByExample};
ghost use Rattle.dhcp_client.specs.TimesExamples.{StepsByExample, TimesByExample};

/// The four cases of options 58 and 59, cut down to whole microseconds.
pub fn times_by_example()
    ensures { TimesByExample }
{}

/// From a message to the next one.
pub fn steps_by_example()
    ensures { StepsByExample }
{}

/// Masks are ones followed by zeros.
pub fn masks_by_example()
    ensures { MasksByExample }
{}

/// Which messages count in which state.
pub fn messages_by_example()
    ensures { MessagesByExample }
{}

/// What is sent when, to whom and with which id.
pub fn plans_by_example()
    ensures { PlansByExample }
{}
