//! The words of an event.

/// The three words of an event, out of those of a run.
#[derive(Clone, Copy, Debug, PartialEq, Eq)]
pub struct EventWords {
    /// The id of a DHCP message that begins an exchange.
    pub first: u32,
    /// The id of a query that the event starts.
    pub second: u32,
    /// The port of that query.
    pub third: u32,
}
