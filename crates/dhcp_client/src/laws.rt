//! What follows from the definitions.
ghost use Rattle.dhcp_client.specs.Ending.{DispatchesEnd, DuesStayOrdered, MessagesMoveDue};
ghost use Rattle.dhcp_client.specs.Plan.{WaitsBeforeDue};
ghost use Rattle.dhcp_client.specs.Times.{TimesAreOrdered};

/// Before `poll_at` a call of `dispatch` sends nothing and changes nothing, whatever the client's state.
pub fn waits_before_due()
    ensures { WaitsBeforeDue }
{}

/// The times of a lease are in order, whatever a server gave.
pub fn lease_times_are_ordered()
    ensures { TimesAreOrdered }
{}

/// Where each timeout is a microsecond or more, and before the last instant: in each state a message that is
/// taken moves `poll_at` past now.
pub fn messages_move_due()
    ensures { MessagesMoveDue }
{}

/// While there is a lease, every call up to the last instant leaves its renewal due not after its rebinding
/// due.
pub fn dues_stay_ordered()
    ensures { DuesStayOrdered }
{}

/// A host that dispatches while its client is due comes to an end: each call leaves fewer, of two at most,
/// where each timeout is a microsecond or more, the dues are in order, and it is before the last instant.
pub fn dispatches_end()
    ensures { DispatchesEnd }
{}
