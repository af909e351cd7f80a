//! A client: its connection, as bytes in and out, and its socket.

use crate::watch_connection::{Doing, WatchConnection};
use mio::net::TcpStream;
use relay_frames::MOST_OUTPUT;
use relay_watching::Tape;
use server_loop::{Deadlines, Stage, Written, write_once};
use std::alloc::AllocError;
use std::net::Shutdown;

/// A client goes: its connection has failed or ended, or there is no memory for it.
#[derive(Clone, Copy)]
pub(crate) struct Gone;

impl From<AllocError> for Gone {
    fn from(_: AllocError) -> Gone {
        Gone
    }
}

/// A client: its connection, as bytes in and out, and its socket.
#[derive(Drop)]
pub(crate) struct Client {
    pub(crate) stream: TcpStream,
    /// The key by which it is found, from its coming on.
    pub(crate) key: usize,
    pub(crate) connection: WatchConnection,
    pub(crate) deadlines: Deadlines,
    /// Whether there was room for it when it came.
    pub(crate) has_room: bool,
    /// Whether everything was sent to it, and its output has ended.
    pub(crate) is_draining: bool,
    /// Whether it is not heard until what it is owed is written.
    pub(crate) is_full: bool,
    /// Whether it is among those that are to be read on although the system reports nothing of them.
    pub(crate) is_unread: bool,
}

impl Client {
    /// Writes what is due, until nothing is or the connection takes no more. The tape is that of the board that it watches. Returns whether
    /// everything is written.
    pub(crate) fn send(&mut self, tape: Option<&Tape>, now: u64) -> Result<bool, Gone> {
        for _ in 0..u64::MAX {
            let piece = self.connection.offered(tape);
            if piece.is_empty() {
                self.deadlines.is_served();
                return Ok(true);
            }
            let length = piece.len();
            match write_once(&self.stream, piece, self.connection.offered_behind(tape)) {
                Written::Bytes(n) => {
                    self.deadlines.is_served();
                    // Of those offered, and then of those behind them.
                    self.connection.wrote(tape, n.min(length));
                    if n > length {
                        self.connection.wrote(tape, n - length);
                    }
                }
                Written::Blocked => {
                    self.deadlines.is_kept_waiting(now);
                    return Ok(false);
                }
                Written::Failed => return Err(Gone),
            }
        }
        Err(Gone)
    }

    /// Whether it is not heard now, because too much is kept for it, or because it is still owed what it has to be sent first. It is heard
    /// again once that is written.
    pub(crate) fn is_deaf(&mut self) -> bool {
        let is_deaf = self.connection.is_owed_first() || self.connection.output.len() > MOST_OUTPUT;
        if is_deaf {
            self.is_full = true;
            self.deadlines.owes_no_rest();
        }
        is_deaf
    }

    /// Whether what it sends is not heard any more.
    pub(crate) fn says_no_more(&self) -> bool {
        self.is_draining || self.connection.is_leaving
    }

    /// The stage at which it is.
    pub(crate) fn stage(&self) -> Stage {
        match &self.connection.doing {
            _ if self.is_draining => Stage::Drains,
            Doing::Comes(_) => Stage::Comes,
            Doing::Asks => Stage::Asks,
            Doing::Watches(_) | Doing::WatchesAll(_) => Stage::Follows,
        }
    }

    /// It was sent everything. Its output ends, and what it still sends is read for a while, since a reset would otherwise destroy the end
    /// of it.
    pub(crate) fn drains(&mut self, now: u64) {
        let _ = self.stream.shutdown(Shutdown::Write);
        self.is_draining = true;
        self.deadlines.begins(now);
    }
}
