//! Sessions: one connection from its handshake to its end.

ghost use Rattle.std.specs.Prelude.{◌≡◌, IfOk, OnOk, option_map, string_bytes};
ghost use Rattle.relay_server.specs.Talking.{IsAnswer, IsAnswered, IsPushed, session_end};

use crate::board_bell::BoardBell;
use crate::ends::SessionEnd;
use crate::outlet::SocketOutlet;
use crate::registry::Registry;
use crate::shared_keeper::SharedKeeper;
use relay_hall::Handed;
use relay_messages::{Answer, MessageFault, encode};
use relay_pushing::{Conn, Gate, Outlet, PushEnd, SendFault, push_all};
use std::alloc::{AllocError, Global};
use std::io::{ErrorKind, Read, Write};
use std::sync::Wait;
use tungstenite::handshake::{HandshakeError, HandshakeRole};
use tungstenite::{Error, Message, accept};

/// How many messages a session reads, with pings and pongs.
const MOST_MESSAGES: u32 = 1_000_000;

/// The close code after `Over`, and if the greatest number of messages was read: a normal end (RFC 6455, section 7.4.1).
const NORMAL: u16 = 1000;

/// The close code after `Cut`: the server's own, from the range for private use (RFC 6455, section 7.4.2).
const CUT_OFF: u16 = 4001;

/// One connection from its handshake to its end. It answers each text and each binary message by one text. Once it follows a board, it is
/// no longer read: it gets that board's moves, and at the end a close, 1000 after `Over` and 4001 after `Cut`. At most 1,000,000 messages
/// are read. At its end its follower leaves, and each board that it opened is ended as abandoned, unless its game is over.
pub fn session<R: Wait, S: Read + Write + Drop, G: Gate>(
    rt: &R,
    alloc: Global,
    registry: &Registry,
    connection: u32,
    stream: S,
    gate: &G,
) -> SessionEnd {
    let socket = match accept(alloc, stream) {
        Ok(socket) => socket,
        Err(error) => return end_unshaken(&error),
    };
    let mut talk = Talk {
        alloc,
        conn: Conn::new(alloc),
        keeper: SharedKeeper::new(rt, registry, connection),
        outlet: SocketOutlet::new(alloc, socket),
        gate: Some(gate),
        connection,
    };
    let end = talk.run();
    talk.finish();
    end
}

/// How a session ends if its handshake failed: for lack of memory, or because there was no handshake.
fn end_unshaken<H: HandshakeRole>(error: &HandshakeError<H>) -> SessionEnd {
    match error {
        HandshakeError::Failure(Error::OutOfMemory) => SessionEnd::Failed,
        HandshakeError::Failure(Error::Io(error)) if error.kind() == ErrorKind::OutOfMemory => {
            SessionEnd::Failed
        }
        _ => SessionEnd::NoHandshake,
    }
}

/// A connection that has shaken hands.
#[derive(Drop)]
struct Talk<'a, R, S, G> {
    alloc: Global,
    conn: Conn,
    keeper: SharedKeeper<'a, R>,
    outlet: SocketOutlet<S>,
    /// The gate that hears of its first command, until that has come.
    gate: Option<&'a G>,
    connection: u32,
}

impl<R: Wait, S: Read + Write + Drop, G: Gate> Talk<'_, R, S, G> {
    /// Answers messages until the connection ends or follows, and then pushes what it follows.
    fn run(&mut self) -> SessionEnd {
        for _ in 0..MOST_MESSAGES {
            let Ok(message) = self.outlet.read() else {
                return SessionEnd::Failed;
            };
            if let Some(end) = self.meet(&message) {
                return end;
            }
        }
        let _ = self.outlet.close(NORMAL);
        SessionEnd::Closed
    }

    /// Answers a message. Returns how the session ended, if it did. Pings and closes are answered by the WebSocket.
    fn meet(&mut self, message: &Message) -> Option<SessionEnd> {
        match message {
            Message::Text(text) => self.answer_command(Some(text.as_str().as_bytes())),
            Message::Binary(_) => self.answer_command(None),
            Message::Ping(_) | Message::Pong(_) => None,
            Message::Close(_) => Some(match self.outlet.flush() {
                Ok(()) => SessionEnd::Closed,
                Err(_) => SessionEnd::Failed,
            }),
        }
    }

    /// Answers a command, of which the gate hears if it is the first, and pushes what the connection follows then. Returns how the session
    /// ended, if it did.
    fn answer_command(&mut self, text: Option<&[u8]>) -> Option<SessionEnd> {
        let gate = self.gate.take();
        if let Some(gate) = gate {
            gate.before(self.connection);
        }
        if self.answer(text).is_err() {
            return Some(SessionEnd::Failed);
        }
        if let Some(gate) = gate {
            gate.after(self.connection);
        }
        let handed = self.keeper.take_handed()?;
        Some(self.follow(handed))
    }

    /// Answers a text, or a message that is none.
    ///
    /// # Errors
    ///
    /// The answer could not be made or sent.
    fn answer(&mut self, text: Option<&[u8]>) -> Result<(), SendFault>
        ensures { OnOk result (IsAnswered S.contents (option_map (λ t. t.now) text.entry) self.old.conn self.old.keeper self.old.outlet.socket self.new.conn self.new.keeper self.new.outlet.socket) }
    {
        match self.answer_of(text) {
            Ok(answer) => self.outlet.send(answer.as_str()),
            Err(AllocError) => Err(SendFault::OutOfMemory),
        }
    }

    /// The answer to a text, or to a message that is none.
    ///
    /// # Errors
    ///
    /// There was no memory.
    fn answer_of(&mut self, text: Option<&[u8]>) -> Result<String, AllocError>
        ensures answer { IfOk result (λ s. IsAnswer (option_map (λ t. t.now) text.entry) self.old.conn self.old.keeper (string_bytes s) self.new.conn self.new.keeper) }
        ensures outlet { self.new.outlet ≡ self.old.outlet }
    {
        match text {
            Some(text) => self.conn.answer(text, &mut self.keeper),
            None => encode(self.alloc, &Answer::Fault(MessageFault::NotJson)),
        }
    }

    /// Pushes a board's moves to the connection until they end, then closes it. The follower leaves.
    fn follow(&mut self, mut handed: Handed) -> SessionEnd {
        let end = match self.keeper.bell_of(&handed.board) {
            Some(bell) => self.push(&mut handed, &bell),
            // Each board has a bell.
            None => SessionEnd::Failed,
        };
        let _ = handed.follower.leave();
        end
    }

    /// Pushes what is taken of it to the connection until that ends, then closes it.
    fn push(&mut self, handed: &mut Handed, bell: &BoardBell<'_, R>) -> SessionEnd
        ensures { IsPushed handed.old result }
    {
        let end = push_all(bell.rt, self.alloc, &mut self.outlet, handed, bell);
        self.close_after(end)
    }

    /// Closes the connection after pushing that has ended so.
    fn close_after(&mut self, end: PushEnd) -> SessionEnd
        ensures { result ≡ session_end end }
    {
        match end {
            PushEnd::Over(_) => {
                let _ = self.outlet.close(NORMAL);
                SessionEnd::Over
            }
            PushEnd::Cut => {
                let _ = self.outlet.close(CUT_OFF);
                SessionEnd::Cut
            }
            PushEnd::Failed(_) => SessionEnd::Failed,
        }
    }

    /// The connection is gone: what it follows is left, and its boards are ended as abandoned.
    fn finish(mut self) {
        if let Some(handed) = self.keeper.take_handed() {
            let _ = handed.follower.leave();
        }
        self.conn.finish(&mut self.keeper);
    }
}
