//! Where connections come in without being waited for, and how one is turned away if there is no descriptor for it.

use mio::net::TcpStream;
use std::io::{ErrorKind, Read, Write};
use std::net::{Shutdown, TcpListener};
use std::{io, net};

/// What a newcomer is told if there is no descriptor for it (RFC 9110, section 15.6.4).
const NO_ROOM: &[u8] =
    b"HTTP/1.1 503 Service Unavailable\r\nConnection: close\r\nContent-Length: 0\r\n\r\n";

/// How many newcomers a loop accepts at most before the others have their turn.
pub const MOST_NEWCOMERS: usize = 64;

/// In how many pieces the request of a newcomer that is turned away is read.
const MOST_PIECES_OF_REQUEST: u32 = 16;

/// The result of an accept.
#[derive(Drop)]
pub enum Arrival {
    /// A newcomer, whose connection does not wait.
    Newcomer(TcpStream),
    /// A newcomer was turned away for lack of a descriptor, or its connection cannot be used.
    TurnedAway,
    /// Nobody is waiting.
    Nobody,
    /// It failed, and is tried again later.
    Failed,
}

/// A descriptor in reserve: another one for the same listener. If the system has none for a newcomer, this one is given up for as long as
/// it takes to tell the newcomer so.
#[derive(Drop)]
pub struct Reserve {
    spare: Option<TcpListener>,
}

impl Reserve {
    /// A descriptor in reserve for this listener, if the system has one.
    pub fn new(listener: &TcpListener) -> Reserve {
        Reserve {
            spare: listener.try_clone().ok(),
        }
    }

    /// Accepts the next newcomer of this listener, which does not wait. If there is no descriptor for it, the one in reserve is given up.
    /// Once the newcomer has come, there may be one again, and then there is room for it.
    pub fn accept(&mut self, listener: &TcpListener) -> Arrival {
        if self.spare.is_none() {
            // Another thread was given it, or the system had none.
            self.spare = listener.try_clone().ok();
        }
        match listener.accept() {
            Ok((stream, _)) => return welcomed(stream),
            Err(error) if is_nobody(&error) => return Arrival::Nobody,
            Err(_) => {}
        }
        self.spare = None;
        let met = listener.accept();
        self.spare = listener.try_clone().ok();
        match met {
            Ok((stream, _)) if self.spare.is_some() => welcomed(stream),
            Ok((stream, _)) => {
                turn_away(stream);
                self.spare = listener.try_clone().ok();
                Arrival::TurnedAway
            }
            Err(error) if is_nobody(&error) => Arrival::Nobody,
            Err(_) => Arrival::Failed,
        }
    }
}

/// Whether the error means that nobody is waiting to be accepted.
fn is_nobody(error: &io::Error) -> bool {
    error.kind() == ErrorKind::WouldBlock
}

/// A newcomer whose connection does not wait.
fn welcomed(stream: net::TcpStream) -> Arrival {
    if stream.set_nonblocking(true).is_err() {
        return Arrival::TurnedAway;
    }
    let _ = stream.set_nodelay(true);
    Arrival::Newcomer(TcpStream::from_std(stream))
}

/// Tells a newcomer that there is no room for it, and ends its connection. What it has sent is read first: otherwise a reset would destroy
/// what it is told.
fn turn_away(mut stream: net::TcpStream) {
    if stream.set_nonblocking(true).is_err() {
        return;
    }
    let mut bytes = [0; 1024];
    for _ in 0..MOST_PIECES_OF_REQUEST {
        match stream.read(&mut bytes) {
            Ok(0) | Err(_) => break,
            Ok(_) => {}
        }
    }
    let _ = stream.write(NO_ROOM);
    let _ = stream.shutdown(Shutdown::Write);
}
