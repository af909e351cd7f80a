//! A WebSocket as an outlet.

ghost use Rattle.std.specs.Prelude.{◌≡◌, IsOk, OnOk};
ghost use Rattle.relay_pushing.specs.Sending.{Counts};
ghost use Rattle.tungstenite.specs.Connection.{write_step};
ghost use Rattle.tungstenite.specs.Content.{text as text_of};
ghost use Rattle.tungstenite.specs.Socket.{Writes};

use relay_pushing::{Outlet, SendFault};
use std::alloc::Global;
use std::io::{ErrorKind, Read, Write};
use tungstenite::{CloseCode, CloseFrame, Error, Message, NoMask, Utf8Bytes, WebSocket};

/// A WebSocket as an outlet, which tells no texts. It counts the failures of its stream, up to the greatest `u64`.
#[derive(Drop)]
pub(crate) struct SocketOutlet<S> {
    alloc: Global,
    socket: WebSocket<S, NoMask>,
    failures: u64,
}

impl<S: Read + Write + Drop> SocketOutlet<S> {
    /// An outlet to this WebSocket, whose stream has not failed.
    pub(crate) fn new(alloc: Global, socket: WebSocket<S, NoMask>) -> SocketOutlet<S> {
        SocketOutlet {
            alloc,
            socket,
            failures: 0,
        }
    }

    /// The next message.
    ///
    /// # Errors
    ///
    /// The stream failed or ended, the peer broke the protocol, or there was no memory.
    pub(crate) fn read(&mut self) -> Result<Message, Error> {
        for _ in 0..u64::MAX {
            match self.socket.read() {
                // The process was stopped and goes on, for example.
                Err(Error::Io(error)) if error.kind() == ErrorKind::Interrupted => {}
                done => return done,
            }
        }
        Err(Error::AlreadyClosed)
    }

    /// What came of a call that sends. A failure of the stream is counted.
    fn sent(&mut self, done: Result<(), Error>) -> Result<(), SendFault>
        ensures ok { OnOk result (IsOk done) }
        ensures counts { Counts self.old.failures self.new.failures result }
        ensures rest { self.new ≡ record self.old { failures = self.new.failures } }
    {
        match done {
            Ok(()) => Ok(()),
            Err(Error::OutOfMemory) => Err(SendFault::OutOfMemory),
            Err(_) => {
                self.failures = self.failures.saturating_add(1);
                Err(SendFault::Device)
            }
        }
    }
}

impl<S: Read + Write + Drop> Outlet for SocketOutlet<S> {
    ghost failures = { λ o. o.failures };

    fn send(&mut self, text: &str) -> Result<(), SendFault>
        ensures written { OnOk result (Writes S.contents self.old.socket self.new.socket
            (write_step self.old.socket.conn (text_of text.now))) }
        ensures counts { Counts self.old.failures self.new.failures result }
    {
        let Ok(message) = Message::text(self.alloc, text) else {
            return Err(SendFault::OutOfMemory);
        };
        let done = self.socket.send(message);
        self.sent(done)
    }

    fn flush(&mut self) -> Result<(), SendFault> {
        let done = self.socket.flush();
        self.sent(done)
    }

    fn close(&mut self, code: u16) -> Result<(), SendFault> {
        let frame = CloseFrame {
            code: CloseCode::from(code),
            reason: Utf8Bytes::from_static(""),
        };
        let done = self.socket.close(Some(frame));
        self.sent(done)
    }
}
