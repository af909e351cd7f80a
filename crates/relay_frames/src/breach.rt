//! How a peer can break the protocol.

ghost use Rattle.std.specs.Prelude.{◌≡◌};
ghost use Rattle.relay_frames.specs.Breaches.{code_of};

use crate::code::Code;

/// What a peer did that ends its connection (RFC 6455, section 7.1.7).
#[derive(Clone, Copy, Debug, PartialEq, Eq)]
pub enum Breach {
    /// The bytes are not a frame's head: the opcode is a reserved one, or the length is not in its shortest form or has its top
    /// bit set (section 5.2).
    NoHead,
    /// A reserved bit is set, and no extension was agreed on (section 5.2).
    ReservedBit,
    /// The frame is not masked (section 5.1).
    Unmasked,
    /// A control frame comes in fragments (section 5.5).
    ControlInFragments,
    /// A control frame has more than 125 bytes (section 5.5).
    LongControl,
    /// A fragment continues a message, but none has begun (section 5.4).
    NothingToContinue,
    /// A message begins within another one (section 5.4).
    MessageWithinMessage,
    /// A close has one byte, or a code that may not be sent (sections 5.5.1 and 7.4).
    BadClose,
    /// A text, or the reason of a close, is not UTF-8 (section 8.1).
    NotUtf8,
    /// A message has more bytes than are accepted.
    TooLong,
    /// A message has more fragments than are accepted.
    TooManyFragments,
}

impl Breach {
    /// The code of the close that tells the peer of it (section 7.4.1): 1007 if bytes are not UTF-8, 1009 for a message that
    /// is too long or has too many fragments, and otherwise 1002.
    #[tactic(auto, unfolding(crate::specs::Codes::may_be_sent))]
    pub fn code(self) -> Code
        ensures { result.number ≡ code_of self }
    {
        match self {
            Breach::NotUtf8 => return Code::NO_UTF8,
            Breach::TooLong | Breach::TooManyFragments => return Code::TOO_BIG,
            _ => {}
        }
        Code::PROTOCOL
    }
}
