//! A connection, as the loop sees it: its socket, how far the loop is with it, and how long it is waited for.

ghost use Rattle.std.specs.Prelude.{◌≡◌};

use mio::net::TcpStream;
use server_loop::Deadlines;
use std::alloc::AllocError;
use std::net::Shutdown;

/// How many pieces a connection may send after everything was written to it.
const MOST_DROPPED: u32 = 4096;

/// How far the loop is with a connection.
#[derive(Clone, Copy, PartialEq, Eq, Debug)]
pub(crate) enum State {
    /// Its request has yet to come, or some of it.
    Comes,
    /// It is read, and answered.
    Talks,
    /// Its turn was over before all was answered that it said: it is not read before that is.
    Interrupted,
    /// So much is due to it that it is neither answered nor read before that is written.
    Full,
    /// It was refused to follow, and is not read for a moment.
    Pauses,
    /// Its own output has ended: it goes once everything is written.
    InputClosed,
    /// Everything was written to it, and the output to it has ended. So many pieces were read and dropped since then.
    Drains(u32),
}

/// What may have come from a connection.
#[derive(Clone, Copy, PartialEq, Eq, Debug)]
pub(crate) enum Input {
    /// Nothing more, until the system reports it.
    Nothing,
    /// Something.
    Something,
    /// Something, or the end of its output: it is read until nothing more comes.
    End,
}

/// What a connection is to boards, as the loop knows it.
#[derive(Clone, Copy, PartialEq, Eq, Debug)]
pub(crate) enum Role {
    /// Boards belong to it, of which the one of this index, in the order of opening, was the first. No board is ever removed, so this
    /// stays true.
    Owner(usize),
    /// It follows the board of this index, in the order of opening.
    Follower(usize),
    /// Neither is known of it.
    Other,
}

/// Why what is done for a connection ends before its time.
#[derive(Clone, Copy, PartialEq, Eq)]
pub(crate) enum Ends {
    /// A board of it is as far ahead of those who follow it as it may be: it has another turn, after them.
    FarAhead,
    /// There was no memory for it. What was due before is sent as far as it takes that, and it goes.
    OutOfMemory,
    /// It goes.
    Gone,
}

impl From<AllocError> for Ends {
    fn from(_: AllocError) -> Ends {
        Ends::OutOfMemory
    }
}

/// A connection.
#[derive(Drop)]
pub(crate) struct Client {
    pub(crate) stream: TcpStream,
    /// The number that the service has for it, from its coming on.
    number: u64,
    pub(crate) deadlines: Deadlines,
    pub(crate) state: State,
    pub(crate) input: Input,
    pub(crate) role: Role,
    /// How many commands to follow were refused since it was last read.
    pub(crate) refused: u32,
    /// Whether it is in the run queue.
    pub(crate) is_queued: bool,
}

impl Client {
    /// A newcomer, from which nothing has come yet.
    pub(crate) fn new(stream: TcpStream, number: u64, now: u64) -> Client
        ensures { result.number ≡ number }
    {
        Client {
            stream,
            number,
            deadlines: Deadlines::new(now),
            state: State::Comes,
            input: Input::Nothing,
            role: Role::Other,
            refused: 0,
            is_queued: false,
        }
    }

    /// The number that the service has for it.
    pub(crate) fn number(&self) -> u64
        ensures { result ≡ self.now.number }
    {
        self.number
    }

    /// Whether its connection did not take what is due.
    pub(crate) fn is_blocked(&self) -> bool {
        self.deadlines.waits_since.is_some()
    }

    /// Whether it follows a board.
    pub(crate) fn follows(&self) -> bool {
        matches!(self.role, Role::Follower(_))
    }

    /// Whether what comes from it is read now.
    pub(crate) fn is_read(&self) -> bool {
        self.input != Input::Nothing
            && matches!(self.state, State::Comes | State::Talks | State::Drains(_))
    }

    /// The system reported that it may be read, or that its output has ended.
    pub(crate) fn is_reported(&mut self, is_readable: bool, has_ended: bool) {
        if has_ended {
            self.input = Input::End;
        } else if is_readable && self.input == Input::Nothing {
            self.input = Input::Something;
        }
    }

    /// It has paused, and is read again.
    pub(crate) fn has_paused(&mut self) {
        self.state = State::Talks;
        self.refused = 0;
    }

    /// A piece came from it that is dropped, since everything was written to it. Returns whether it may send more.
    pub(crate) fn drops(&mut self) -> bool {
        let State::Drains(dropped) = self.state else {
            return true;
        };
        let dropped = dropped.saturating_add(1);
        self.state = State::Drains(dropped);
        dropped < MOST_DROPPED
    }

    /// Everything was written to it: the output to it ends, and what it still sends is read for a while, since a reset would otherwise
    /// destroy the end of it.
    pub(crate) fn drains(&mut self, now: u64) {
        let _ = self.stream.shutdown(Shutdown::Write);
        self.state = State::Drains(0);
        if self.input == Input::Nothing {
            self.input = Input::Something;
        }
        self.deadlines.begins(now);
    }
}
