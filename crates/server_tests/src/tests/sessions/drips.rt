//! Sessions whose bytes arrive one by one behind the request, and leave two by two, each after a call that was interrupted. They are the
//! same as those whose bytes arrive in one piece.

use crate::tests::claims::claim_at;
use crate::tests::parts::front;
use crate::tests::sessions::frames::{behind_head, lines};
use crate::tests::sessions::gates::Counted;
use crate::tests::sessions::peers::Peer;
use crate::tests::sessions::rows::{Row, input, registry, rows};
use relay_server::{Gate, Registry, SessionEnd, session};
use std::alloc::Global;
use std::io;
use std::io::{ErrorKind, Write};
use std::process::Abort;
use std::sync::Wait;
use tungstenite::Duplex;

/// A writer that takes two bytes at most. It is not interrupted before it has the response: what waits for that asks once.
#[derive(Drop)]
struct Sips<'a> {
    taken: &'a mut Vec<u8>,
    has_response: bool,
    was_interrupted: bool,
}

impl Write for Sips<'_> {
    fn write(&mut self, buf: &[u8]) -> io::Result<usize> {
        self.has_response = self.has_response || self.taken.ends_with(b"\r\n\r\n");
        self.was_interrupted = self.has_response && !self.was_interrupted;
        if self.was_interrupted {
            return Err(io::Error::from(ErrorKind::Interrupted));
        }
        let n = buf.len().min(2);
        match self.taken.extend_from_slice(&buf[..n]) {
            Ok(()) => Ok(n),
            Err(_) => Err(io::Error::from(ErrorKind::OutOfMemory)),
        }
    }

    fn flush(&mut self) -> io::Result<()> {
        Ok(())
    }
}

/// How the session of a peer ends whose bytes come so, and what it is sent.
fn dripped<R: Wait, G: Gate>(
    rt: &R,
    alloc: Global,
    registry: &Registry,
    bytes: &[u8],
    gate: &G,
    sent: &mut Vec<u8>,
) -> SessionEnd {
    let reader = Peer::dripping(bytes);
    let writer = Sips {
        taken: sent,
        has_response: false,
        was_interrupted: false,
    };
    session(rt, alloc, registry, 1, Duplex { reader, writer }, gate)
}

/// Whether the session of a peer that sends this ends so and answers so, and its gate is notified so often.
fn talks<R: Wait + Abort>(rt: &R, alloc: Global, registry: &Registry, row: &Row) -> bool {
    let (frames, cut, wanted, told, calls) = *row;
    let bytes = input(alloc, frames).expect(rt, "memory");
    let until = bytes.len().saturating_sub(cut);
    let gate = Counted::new();
    let mut sent = Vec::new(alloc);
    let end = dripped(rt, alloc, registry, front(&bytes, until), &gate, &mut sent);
    let answered = lines(alloc, behind_head(sent.as_slice())).expect(rt, "memory");
    end == wanted && gate.counts() == calls && answered.as_slice() == told
}

#[test]
fn calls_that_are_interrupted_and_bytes_that_come_one_by_one_change_nothing(rt: HostRuntime) {
    let shared = registry(&rt, rt.alloc());
    for (at, row) in rows().iter().enumerate() {
        claim_at(&rt, talks(&rt, rt.alloc(), &shared, row), "row", at);
    }
    drop(shared);
}
