//! The bytes that are due to a peer, whoever it is: the one place where they are kept, and the one bound of how many they may be.

ghost use Rattle.std.specs.Prelude.{◌≡◌, ◌≤◌, ◌++◌, [], drop, length, nat_lt, take, OnErr, OnOk};
ghost use Rattle.relay_frames.specs.Events.{number_of};
ghost use Rattle.relay_frames.specs.Frames.{close_frame, ping_frame, pong_frame, text_frame};
ghost use Rattle.relay_frames.specs.Requests.{acceptance_text, answer_text};

use crate::acceptance::Acceptance;
use crate::code::Code;
use crate::outgoing;
use crate::request_refusal::RequestRefusal;
use std::alloc::{AllocError, Global};
use std::marker::Model;

/// How many bytes may be due to a peer before it is no longer read.
pub const MOST_OUTPUT: usize = 16384;

/// How many bytes of room are kept while nothing is due: enough for most answers, and little for a connection at rest.
const MOST_ROOM: usize = 512;

/// The frames that were put, without the bytes of them that were written. Contracts see what is due.
#[derive(Drop)]
pub struct Output {
    /// What is due, and before it what was written and has yet to be let go.
    bytes: Vec<u8>,
    /// How many of these bytes are written.
    written: usize,
}

impl Model for Output {
    ghost use Rattle.std.specs.Prelude.{ℕ, List};

    ghost Value = { List ℕ };

    ghost use Rattle.std.specs.Prelude.{drop, length, ◌≤◌};

    ghost view = { λ o. drop o.written o.bytes.items };

    ghost invariant = { λ o. o.written ≤ length o.bytes.items };
}

/// Removes `n` bytes at the front.
fn remove_front(bytes: &mut Vec<u8>, n: usize)
    requires { n ≤ length bytes.old.items }
    ensures { bytes.new.items ≡ drop n bytes.old.items }
{
    if n == bytes.len() {
        bytes.clear();
    } else {
        bytes.drain(..n);
    }
}

impl Output {
    /// Nothing is due.
    pub fn new(alloc: Global) -> Output
        ensures { result ≡ [] }
    {
        Output {
            bytes: Vec::new(alloc),
            written: 0,
        }
    }

    /// These bytes are due.
    pub fn of(bytes: Vec<u8>) -> Output
        ensures { result ≡ bytes.items }
    {
        Output { bytes, written: 0 }
    }

    /// What is due.
    pub fn as_slice(&self) -> &[u8]
        ensures { result.now ≡ self.now }
    {
        &self.bytes[self.written..]
    }

    /// How many bytes are due.
    pub fn len(&self) -> usize
        ensures { result ≡ length self.now }
    {
        self.as_slice().len()
    }

    /// Whether so much is due that the peer is not read until some of it is written.
    pub fn is_full(&self) -> bool
        ensures { result ≡ nat_lt MOST_OUTPUT (length self.now) }
    {
        self.len() > MOST_OUTPUT
    }

    /// Puts the acceptance of a request (RFC 6455, section 4.2.2).
    ///
    /// # Errors
    ///
    /// There was no memory. Then nothing has changed, here and below.
    #[tactic(auto, using(crate::proofs::Dues::due_more))]
    pub fn accept(&mut self, acceptance: &Acceptance) -> Result<(), AllocError>
        ensures ok { OnOk result (self.new ≡ self.old ++ acceptance_text acceptance.now.value) }
        ensures err { OnErr result (self.new ≡ self.old) }
    {
        acceptance.write(&mut self.bytes)
    }

    /// Puts the answer to a request that is refused.
    #[tactic(auto, using(crate::proofs::Dues::due_more))]
    pub fn refuse(&mut self, refusal: RequestRefusal) -> Result<(), AllocError>
        ensures ok { OnOk result (self.new ≡ self.old ++ answer_text refusal) }
        ensures err { OnErr result (self.new ≡ self.old) }
    {
        self.bytes.extend_from_slice(refusal.answer())
    }

    /// Puts the frame of a text (RFC 6455, section 5.6).
    #[tactic(auto, using(crate::proofs::Dues::due_more))]
    pub fn text(&mut self, text: &str) -> Result<(), AllocError>
        ensures ok { OnOk result (self.new ≡ self.old ++ text_frame text.now) }
        ensures err { OnErr result (self.new ≡ self.old) }
    {
        outgoing::text(text, &mut self.bytes)
    }

    /// Puts a pong with these bytes (RFC 6455, section 5.5.3).
    #[tactic(auto, using(crate::proofs::Dues::due_more))]
    pub fn pong(&mut self, payload: &[u8]) -> Result<(), AllocError>
        ensures ok { OnOk result (self.new ≡ self.old ++ pong_frame payload.now) }
        ensures err { OnErr result (self.new ≡ self.old) }
    {
        outgoing::pong(payload, &mut self.bytes)
    }

    /// Puts a ping (RFC 6455, section 5.5.2).
    #[tactic(auto, using(crate::proofs::Dues::due_more))]
    pub fn ping(&mut self) -> Result<(), AllocError>
        ensures ok { OnOk result (self.new ≡ self.old ++ ping_frame []) }
        ensures err { OnErr result (self.new ≡ self.old) }
    {
        outgoing::ping(b"", &mut self.bytes)
    }

    /// Puts a close with this code or none (RFC 6455, section 5.5.1).
    #[tactic(auto, using(crate::proofs::Dues::due_more))]
    pub fn close(&mut self, code: Option<Code>) -> Result<(), AllocError>
        ensures ok { OnOk result (self.new ≡ self.old ++ close_frame (number_of code)) }
        ensures err { OnErr result (self.new ≡ self.old) }
    {
        outgoing::close(code, &mut self.bytes)
    }

    /// Takes back all but the first `n` bytes that are due.
    #[tactic(auto, using(crate::proofs::Dues::due_less))]
    pub fn truncate(&mut self, n: usize)
        requires { n ≤ length self.old }
        ensures { self.new ≡ take n self.old }
    {
        self.bytes.truncate(self.written + n);
    }

    /// The first `n` bytes that were due are written, or all if they are fewer.
    #[tactic(auto, using(crate::proofs::Dues::due_later))]
    pub fn wrote(&mut self, n: usize)
        ensures { self.new ≡ drop n self.old }
    {
        self.written = self.written.saturating_add(n).min(self.bytes.len());
        self.let_go();
    }

    /// Lets go what is written once nothing is due, or once it is much: for a peer that never takes all of it this is little for each byte.
    fn let_go(&mut self)
        ensures { self.new ≡ self.old }
    {
        if self.written == self.bytes.len() && self.bytes.capacity() > MOST_ROOM {
            self.bytes.clear();
            self.bytes.shrink_to_fit();
            self.written = 0;
        } else if self.written == self.bytes.len() || self.written > MOST_OUTPUT {
            remove_front(&mut self.bytes, self.written);
            self.written = 0;
        }
    }

    /// What is due, for another one to write.
    pub fn into_bytes(self) -> Vec<u8>
        ensures { result.items ≡ self }
    {
        let mut bytes = self.bytes;
        remove_front(&mut bytes, self.written);
        bytes
    }
}
