//! A message that comes in fragments.

ghost use Rattle.std.specs.Prelude.{◌≡◌, ◌+◌, ◌<◌};
ghost use Rattle.relay_frames.specs.Events.{told};
ghost use Rattle.relay_frames.specs.Holding.{message_of};
ghost use Rattle.relay_frames.specs.Reading.{fragment_breach, kind_of, size_breach, told_of_message};

use crate::breach::Breach;
use crate::event::Event;
use crate::peer::{MOST_BYTES, MOST_FRAGMENTS};
use std::marker::Model;
use websocket::protocol::MessageType;
use websocket::protocol::frame::coding::Data;

/// What is known, besides its bytes, of a message whose last fragment has yet to come (RFC 6455, section 5.4).
#[derive(Drop)]
pub(crate) struct Begun {
    kind: MessageType,
    fragments: u32,
}

impl Model for Begun {
    ghost use Rattle.relay_frames.specs.Holding.{Beginning};

    ghost Value = { Beginning };

    ghost view = { λ b. record { kind = b.kind; fragments = b.fragments } };
}

impl Begun {
    /// A message with its first fragment.
    pub(crate) fn new(kind: Data) -> Begun
        ensures { result ≡ record { kind = kind_of kind; fragments = 1 } }
    {
        Begun {
            kind: kind_of(kind),
            fragments: 1,
        }
    }

    /// The message with one more fragment.
    pub(crate) fn and_one_more(&self) -> Begun
        requires { self.now.fragments < MOST_FRAGMENTS }
        ensures { result ≡ record self.now { fragments = self.now.fragments + 1 } }
    {
        Begun {
            kind: self.kind,
            fragments: self.fragments + 1,
        }
    }

    /// The rule that a further fragment of this many bytes would break, after these bytes of the message.
    pub(crate) fn breach(&self, bytes: &[u8], length: u64) -> Option<Breach>
        ensures { result ≡ fragment_breach (message_of bytes.now self.now) length }
    {
        if self.fragments >= MOST_FRAGMENTS {
            return Some(Breach::TooManyFragments);
        }
        size_breach(bytes.len(), length)
    }

    /// The message is complete, and has these bytes.
    pub(crate) fn into_event(self, bytes: Vec<u8>) -> Event
        ensures { told result ≡ told_of_message self.kind bytes.items }
    {
        match self.kind {
            MessageType::Binary => Event::Binary(bytes),
            MessageType::Text => text_event(bytes),
        }
    }
}

/// The kind of a message that begins with this frame.
fn kind_of(kind: Data) -> MessageType
    ensures { result ≡ kind_of kind }
{
    match kind {
        Data::Binary => MessageType::Binary,
        _ => MessageType::Text,
    }
}

/// The rule that a frame of this many bytes would break, after `before` bytes of the same message.
pub(crate) fn size_breach(before: usize, length: u64) -> Option<Breach>
    ensures { result ≡ size_breach before length }
{
    if length > MOST_BYTES as u64 || before > MOST_BYTES - length as usize {
        return Some(Breach::TooLong);
    }
    None
}

/// A text if the bytes are UTF-8, and otherwise the breach.
fn text_event(bytes: Vec<u8>) -> Event
    ensures { told result ≡ told_of_message MessageType.Text bytes.items }
{
    match String::from_utf8(bytes) {
        Ok(text) => Event::Text(text),
        Err(_) => Event::Broken(Breach::NotUtf8),
    }
}
