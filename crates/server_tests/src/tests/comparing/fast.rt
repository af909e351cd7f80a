//! A connection that a hall answers from bytes, as the program's server has them, without its loop. What it follows is pushed at once.

use crate::tests::claims::claim;
use crate::tests::sessions::frames::{REQUEST, behind_head, lines};
use relay_hall::{Hall, Handed};
use relay_server::{Bell, Outlet, PushEnd, SendFault, SessionEnd, push_all};
use relay_service::calling::{OperatorConnection, Stage};
use std::alloc::Global;
use std::process::Abort;
use std::sync::Wait;

/// An outlet that has the texts as lines.
#[derive(Drop)]
struct Lines {
    told: Vec<u8>,
}

impl Outlet for Lines {
    ghost failures = { λ _. 0 };

    fn send(&mut self, text: &str) -> Result<(), SendFault> {
        for part in [text.as_bytes(), b"\n"] {
            if self.told.extend_from_slice(part).is_err() {
                return Err(SendFault::OutOfMemory);
            }
        }
        Ok(())
    }

    fn close(&mut self, _code: u16) -> Result<(), SendFault> {
        Ok(())
    }
}

/// A bell for which nobody has to wait: the games are over.
#[derive(Drop)]
struct Silent;

impl Bell for Silent {
    fn count(&self) -> u64 {
        0
    }

    fn ring(&self) {}

    fn wait(&self, heard: u64) -> u64 {
        heard.wrapping_add(1)
    }
}

/// A connection without a key.
#[derive(Drop)]
pub struct Fast {
    alloc: Global,
    connection: OperatorConnection,
    sent: Vec<u8>,
    /// What it was sent once it followed.
    pushed: Vec<u8>,
    end: Option<SessionEnd>,
}

/// A connection that has sent its request.
pub fn shaken(rt: &impl Abort, alloc: Global, number: u32) -> Fast {
    let mut fast = Fast {
        alloc,
        connection: OperatorConnection::new(alloc, u64::from(number), false),
        sent: Vec::new(alloc),
        pushed: Vec::new(alloc),
        end: None,
    };
    fast.feeds(rt, REQUEST);
    fast
}

/// How a session ends whose pushing has ended so, and the line of its close.
fn closed(end: PushEnd) -> (SessionEnd, &'static [u8]) {
    match end {
        PushEnd::Over(_) => (SessionEnd::Over, b"close 1000\n"),
        PushEnd::Cut => (SessionEnd::Cut, b"close 4001\n"),
        PushEnd::Failed(_) => (SessionEnd::Failed, b""),
    }
}

/// How the pushing of a follower ends, which leaves its board then, and what it is pushed.
fn pushed<R: Wait>(rt: &R, alloc: Global, mut handed: Handed) -> (PushEnd, Vec<u8>) {
    let mut outlet = Lines {
        told: Vec::new(alloc),
    };
    let end = push_all(rt, alloc, &mut outlet, &mut handed, &Silent);
    let _ = handed.follower.leave();
    (end, outlet.told)
}

impl Fast {
    /// It has read these bytes.
    fn feeds(&mut self, rt: &impl Abort, bytes: &[u8]) {
        claim(rt, self.connection.feed(bytes).is_ok(), "memory");
    }

    /// These bytes come.
    pub fn comes<R: Wait + Abort>(&mut self, rt: &R, hall: &mut Hall, bytes: &[u8]) {
        self.feeds(rt, bytes);
        for _ in 0..=bytes.len() {
            if self.end.is_some() || !self.answers(rt, hall) {
                break;
            }
        }
        if self.end.is_none() && self.connection.stage() == Stage::Leaves {
            self.end = Some(SessionEnd::Closed);
        }
    }

    /// Whether it says something next. That is answered.
    fn answers<R: Wait + Abort>(&mut self, rt: &R, hall: &mut Hall) -> bool {
        let (some, handed) = self.connection.answer(hall);
        self.takes(rt);
        if let Some(handed) = handed {
            self.follows(rt, handed);
        }
        some.expect(rt, "memory")
    }

    /// What is due is taken.
    fn takes(&mut self, rt: &impl Abort) {
        let due = self.connection.due();
        self.sent.extend_from_slice(due).expect(rt, "memory");
        self.connection.wrote(usize::MAX);
    }

    /// It is told of the board that it follows, to its end.
    fn follows<R: Wait + Abort>(&mut self, rt: &R, handed: Handed) {
        let (end, told) = pushed(rt, self.alloc, handed);
        let (end, close) = closed(end);
        self.pushed = told;
        self.pushed.extend_from_slice(close).expect(rt, "memory");
        self.end = Some(end);
    }

    /// It goes. Returns how its session ended, and the lines that it was sent.
    pub fn goes(self, rt: &impl Abort, hall: &mut Hall) -> (SessionEnd, Vec<u8>) {
        hall.leave(self.connection.owner());
        let sent = behind_head(self.sent.as_slice());
        let mut told = lines(self.alloc, sent).expect(rt, "memory");
        let pushed = self.pushed.as_slice();
        told.extend_from_slice(pushed).expect(rt, "memory");
        let end = self.end.unwrap_or(SessionEnd::Failed);
        drop(self);
        (end, told)
    }
}
