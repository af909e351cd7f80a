//! What a relay answers to a text.

use crate::fault::MessageFault;
use relay_core::Reply;

/// The answer to a text.
#[derive(Clone, Copy, PartialEq, Eq, Debug)]
pub enum Answer {
    /// The reply to the command that the text gives.
    Reply(Reply),
    /// The text gives no command.
    Fault(MessageFault),
}
