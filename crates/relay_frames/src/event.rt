//! What a peer is found to have sent.

ghost use Rattle.std.specs.Prelude.{◌≡◌, option_map, IfOk};
ghost use Rattle.relay_frames.specs.Events.{is_last, told};
ghost use Rattle.relay_frames.specs.Frames.{answer_of};

use crate::breach::Breach;
use crate::code::Code;
use crate::outgoing;
use std::alloc::{AllocError, Global};

/// What a peer sent.
#[derive(Debug, Drop)]
pub enum Event {
    /// A fragment of a message that goes on: whoever gets this event may set a deadline for the rest.
    Fragment,
    /// A text.
    Text(String),
    /// A binary message.
    Binary(Vec<u8>),
    /// A ping, which has at most 125 bytes. Its answer is a pong with these bytes; of several pings only the last one needs to be
    /// answered (RFC 6455, section 5.5.3).
    Ping(Vec<u8>),
    /// A pong, which has at most 125 bytes.
    Pong(Vec<u8>),
    /// A close, and its code if it has one. No event follows it. Its answer is a close with the same code.
    Closed(Option<Code>),
    /// The peer broke the protocol. No event follows it. Its answer is a close with the breach's code.
    Broken(Breach),
}

impl Event {
    /// Whether no event follows it.
    pub fn is_last(&self) -> bool
        ensures { result ≡ is_last (told self.now) }
    {
        matches!(self, Event::Closed(_) | Event::Broken(_))
    }

    /// The frame that is due to the peer, if there is one: the pong of a ping, the close of a close or of a breach.
    ///
    /// # Errors
    ///
    /// There was no memory.
    pub fn answer(&self, alloc: Global) -> Result<Option<Vec<u8>>, AllocError>
        ensures { IfOk result (λ frame. option_map (λ f. f.items) frame ≡ answer_of (told self.now)) }
    {
        let mut frame = Vec::new(alloc);
        match self {
            Event::Ping(payload) => outgoing::pong(payload.as_slice(), &mut frame)?,
            Event::Closed(code) => outgoing::close(*code, &mut frame)?,
            Event::Broken(breach) => outgoing::close(Some(breach.code()), &mut frame)?,
            _ => return Ok(None),
        }
        Ok(Some(frame))
    }
}
