//! Sessions over a device that fails: how they end, that nothing more is written, and that their boards are over.

use crate::tests::claims::{claim, claim_at};
use crate::tests::sessions::frames::{REQUEST, TEXT};
use crate::tests::sessions::peers::Peer;
use crate::tests::sessions::rows::{input, registry, talked};
use crate::tests::sessions::texts::{FOLLOW_B1, owner_frames};
use relay_server::{OpenGate, Registry, SessionEnd, session};
use std::alloc::Global;
use std::io;
use std::io::{ErrorKind, Write};
use std::process::Abort;
use std::sync::Wait;
use tungstenite::Duplex;

/// A writer that takes this many bytes, then fails once, and would take all others.
#[derive(Drop)]
struct FailingWriter<'a> {
    taken: &'a mut Vec<u8>,
    room: usize,
    kind: ErrorKind,
    has_failed: bool,
}

impl Write for FailingWriter<'_> {
    fn write(&mut self, buf: &[u8]) -> io::Result<usize> {
        let room = self.room.saturating_sub(self.taken.len());
        let n = if self.has_failed {
            buf.len()
        } else {
            buf.len().min(room)
        };
        if n == 0 {
            self.has_failed = true;
            return Err(io::Error::from(self.kind));
        }
        match self.taken.extend_from_slice(&buf[..n]) {
            Ok(()) => Ok(n),
            Err(_) => Err(io::Error::from(ErrorKind::OutOfMemory)),
        }
    }

    fn flush(&mut self) -> io::Result<()> {
        Ok(())
    }
}

/// Failures of a device.
static DEVICE: [ErrorKind; 4] = [
    ErrorKind::TimedOut,
    ErrorKind::WouldBlock,
    ErrorKind::ConnectionReset,
    ErrorKind::BrokenPipe,
];

fn failures() -> &'static [ErrorKind] {
    &DEVICE
}

/// How the session of an owner ends if its reads give this many bytes of what it sends and then fail in this way, or end.
fn end_of_owner<R: Wait + Abort, W: Write + Drop>(
    rt: &R,
    alloc: Global,
    registry: &Registry,
    (until, failure): (usize, Option<ErrorKind>),
    writer: W,
) -> SessionEnd {
    let bytes = input(alloc, owner_frames()).expect(rt, "memory");
    let reader = Peer::failing(&bytes, until, failure);
    session(rt, alloc, registry, 1, Duplex { reader, writer }, &OpenGate)
}

/// How a session ends whose reads give this many bytes of an owner and then fail in this way, or end.
fn end_of_reading<R: Wait + Abort>(
    rt: &R,
    alloc: Global,
    until: usize,
    failure: Option<ErrorKind>,
) -> SessionEnd {
    let shared = registry(rt, alloc);
    let mut sent = Vec::new(alloc);
    let end = end_of_owner(rt, alloc, &shared, (until, failure), &mut sent);
    drop((shared, sent));
    end
}

/// How many bytes are read before a read fails or is the end, and how the session ends then: in the handshake, behind it, and in a frame.
static READS: [(usize, SessionEnd); 5] = [
    (0, SessionEnd::NoHandshake),
    (20, SessionEnd::NoHandshake),
    (REQUEST.len() - 1, SessionEnd::NoHandshake),
    (REQUEST.len(), SessionEnd::Failed),
    (REQUEST.len() + 9, SessionEnd::Failed),
];

fn reads() -> &'static [(usize, SessionEnd)] {
    &READS
}

#[test]
fn a_read_that_fails_ends_the_handshake_or_the_session(rt: HostRuntime) {
    let alloc = rt.alloc();
    for (until, wanted) in reads() {
        let end = end_of_reading(&rt, alloc, *until, None);
        claim_at(&rt, end == *wanted, "the end behind", *until);
        for kind in failures() {
            let end = end_of_reading(&rt, alloc, *until, Some(*kind));
            claim_at(&rt, end == *wanted, "a failure behind", *until);
        }
    }
    // Only lack of memory is not the peer's fault.
    let wanting = end_of_reading(&rt, alloc, 20, Some(ErrorKind::OutOfMemory));
    claim(&rt, wanting == SessionEnd::Failed, "lack of memory");
}

/// Whether a guest of board b1, once its owner's session is over, is told that the board is over or, if it was not opened, that there is
/// none.
fn is_told_of_b1<R: Wait + Abort>(rt: &R, alloc: Global, shared: &Registry, opened: bool) -> bool {
    let bytes = input(alloc, &[(TEXT, FOLLOW_B1)]).expect(rt, "memory");
    let (_, told) = talked(rt, alloc, shared, 2, Peer::new(&bytes), &OpenGate);
    if opened {
        told.as_slice().ends_with(ABANDONED)
    } else {
        told.as_slice() == NO_BOARD
    }
}

const NO_BOARD: &[u8] = b"{\"code\":1,\"name\":\"NoSuchBoard\",\"reply\":\"refused\"}\n";

const ABANDONED: &[u8] = b"{\"outcome\":\"abandoned\",\"reply\":\"over\"}\nclose 1000\n";

/// How many bytes are written before a write fails, and how the session ends then: they are a part of the response; all of it; a part of
/// the first answer, all of it, and a part of the second. Behind the response the board was opened by then.
static WRITES: [(usize, SessionEnd); 5] = [
    (100, SessionEnd::NoHandshake),
    (129, SessionEnd::Failed),
    (140, SessionEnd::Failed),
    (149, SessionEnd::Failed),
    (160, SessionEnd::Failed),
];

fn writes() -> &'static [(usize, SessionEnd)] {
    &WRITES
}

/// Whether a session whose writes take this many bytes and then fail in this way ends so and writes no more, and its board is over if it
/// was opened.
fn fails_for_good<R: Wait + Abort>(
    rt: &R,
    alloc: Global,
    (room, wanted): (usize, SessionEnd),
    kind: ErrorKind,
) -> bool {
    let shared = registry(rt, alloc);
    let mut sent = Vec::new(alloc);
    let writer = FailingWriter {
        taken: &mut sent,
        room,
        kind,
        has_failed: false,
    };
    let end = end_of_owner(rt, alloc, &shared, (usize::MAX, Some(kind)), writer);
    let is_told = is_told_of_b1(rt, alloc, &shared, wanted == SessionEnd::Failed);
    let is_last = sent.len() == room;
    drop((shared, sent));
    end == wanted && is_last && is_told
}

#[test]
fn a_write_that_fails_is_the_last_and_the_boards_are_over(rt: HostRuntime) {
    for row in writes() {
        for kind in failures() {
            let fails = fails_for_good(&rt, rt.alloc(), *row, *kind);
            claim_at(&rt, fails, "fails behind", row.0);
        }
    }
}
