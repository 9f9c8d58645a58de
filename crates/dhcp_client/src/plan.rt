//! What the client is about to do.
use crate::messages::OutgoingMessage;
use crate::state::ClientState;

/// What a call of `dispatch` does.
#[derive(Debug, Drop)]
pub(crate) enum Plan<'a> {
    Wait,
    /// Discovers anew.
    Restart,
    Send {
        outgoing: OutgoingMessage<'a>,
        /// If the message is refused.
        before: ClientState,
        /// If it is taken.
        after: ClientState,
    },
}
