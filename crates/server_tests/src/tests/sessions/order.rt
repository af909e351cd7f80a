//! What a session asks of its stream and of its gate, in order.

use crate::tests::claims::{claim, claim_at};
use crate::tests::parts::{behind, front};
use crate::tests::sessions::frames::{CLOSE, NORMAL, PONG, REQUEST, TEXT};
use crate::tests::sessions::journal::{Journal, NotedGate, NotedStream};
use crate::tests::sessions::rows::{Frame, input, registry, talked};
use crate::tests::sessions::texts::{FOLLOW_B1_FROM_0, OPEN_B1, SUBMIT_E2E4, SUBMIT_E7E5};
use relay_server::{OpenGate, Registry, SessionEnd, session};
use std::alloc::Global;
use std::io;
use std::io::Read;
use std::process::Abort;
use std::sync::Wait;

/// An owner sends its request; then the command to open and one half of a move; then the other half and a second move; then a close.
///
/// Each answer is written before the next message is looked for. A frame has two bytes besides its payload: the response has 129 bytes,
/// `opened` 18, `played` 43 each, the close 2. The gate hears of the first command alone.
fn of_an_owner() -> &'static str {
    "read\nwritten 129\nread\nbefore 7\nwritten 20\nafter 7\nread\nwritten 45\nwritten 45\nread\nwritten 4\n"
}

/// A follower of that game sends its request and its command. The answer has 97 bytes, the two moves 40 each, the end of the game 38.
/// Behind the answer nothing is read.
fn of_a_follower() -> &'static str {
    "read\nwritten 129\nread\nbefore 7\nwritten 99\nafter 7\nwritten 42\nwritten 42\nwritten 40\nwritten 4\n"
}

/// An owner sends its request; then, in one piece, two commands and a frame that breaks the rules. Both are answered, and then no more is
/// read or written.
fn of_a_breach() -> &'static str {
    "read\nwritten 129\nread\nbefore 7\nwritten 20\nafter 7\nwritten 45\n"
}

/// Frames that break the rules: of an unknown kind, with reserved bits, without a mask, and a text's last part without its first.
static BROKEN: [&[u8]; 4] = [
    &[0x83, 0x80, 0, 0, 0, 0],
    &[0xc1, 0x80, 0, 0, 0, 0],
    &[0x81, 0x02, b'[', b']'],
    &[0x80, 0x80, 0, 0, 0, 0],
];

/// These frames.
fn broken_frames() -> &'static [&'static [u8]] {
    &BROKEN
}

/// Whether the session of a peer that sends these pieces ends so, and asks this of its stream and its gate.
fn asks<R: Wait>(
    rt: &R,
    alloc: Global,
    registry: &Registry,
    pieces: &[&[u8]],
    (wanted, calls): (SessionEnd, &str),
) -> bool {
    let journal = Journal::new(alloc);
    let stream = NotedStream {
        pieces,
        count: 0,
        journal: &journal,
    };
    let gate = NotedGate { journal: &journal };
    let end = session(rt, alloc, registry, 7, stream, &gate);
    end == wanted && journal.has(calls)
}

/// How many bytes a frame has besides its payload: its first byte, its size and its mask.
const HEAD: usize = 6;

/// What the owner sends behind its request.
static OWNER: [Frame; 4] = [
    (TEXT, OPEN_B1),
    (TEXT, SUBMIT_E2E4),
    (TEXT, SUBMIT_E7E5),
    (CLOSE, NORMAL),
];

/// How many bytes its second piece has, and its third.
const SECOND: usize = HEAD + OPEN_B1.len() + (HEAD + SUBMIT_E2E4.len()) / 2;

const THIRD: usize = 3 * HEAD + OPEN_B1.len() + SUBMIT_E2E4.len() + SUBMIT_E7E5.len() - SECOND;

/// What the follower sends behind its request.
static FOLLOWER: [Frame; 1] = [(TEXT, FOLLOW_B1_FROM_0)];

/// What a peer sends before a frame that breaks the rules.
static BEFORE: [Frame; 2] = [(TEXT, OPEN_B1), (TEXT, SUBMIT_E2E4)];

/// What the owner sends, what the follower sends, and what is sent before a breach.
fn sent() -> [&'static [Frame]; 3] {
    [&OWNER, &FOLLOWER, &BEFORE]
}

/// Whether the owner's session asks for what it is to.
fn asks_for_an_owner<R: Wait + Abort>(rt: &R, alloc: Global, registry: &Registry) -> bool {
    let bytes = input(alloc, sent()[0]).expect(rt, "memory");
    let (second, rest) = (front(&bytes, SECOND), behind(&bytes, SECOND));
    let pieces = [REQUEST, second, front(rest, THIRD), behind(rest, THIRD)];
    let told = (SessionEnd::Closed, of_an_owner());
    asks(rt, alloc, registry, &pieces, told)
}

/// Whether the follower's session asks for what it is to.
fn asks_for_a_follower<R: Wait + Abort>(rt: &R, alloc: Global, registry: &Registry) -> bool {
    let bytes = input(alloc, sent()[1]).expect(rt, "memory");
    let told = (SessionEnd::Over, of_a_follower());
    asks(rt, alloc, registry, &[REQUEST, bytes.as_slice()], told)
}

/// Whether the session of a peer that sends this frame behind its second command asks for what it is to.
fn asks_until_a_breach<R: Wait + Abort>(rt: &R, alloc: Global, broken: &[u8]) -> bool {
    let shared = registry(rt, alloc);
    let mut bytes = input(alloc, sent()[2]).expect(rt, "memory");
    bytes.extend_from_slice(broken).expect(rt, "memory");
    let told = (SessionEnd::Failed, of_a_breach());
    let is_asked = asks(rt, alloc, &shared, &[REQUEST, bytes.as_slice()], told);
    drop((shared, bytes));
    is_asked
}

#[test]
fn each_call_comes_in_its_turn(rt: HostRuntime) {
    let shared = registry(&rt, rt.alloc());
    let is_asked = asks_for_an_owner(&rt, rt.alloc(), &shared);
    claim(&rt, is_asked, "for an owner");
    let is_asked = asks_for_a_follower(&rt, rt.alloc(), &shared);
    claim(&rt, is_asked, "for a follower");
    drop(shared);
}

#[test]
fn each_call_comes_in_its_turn_at_a_breach(rt: HostRuntime) {
    for (at, broken) in broken_frames().iter().enumerate() {
        let is_asked = asks_until_a_breach(&rt, rt.alloc(), *broken);
        claim_at(&rt, is_asked, "until the breach", at);
    }
}

/// A pong without payload, as a client sends it.
const PONG_FRAME: &[u8] = &[PONG, 0x80, 0, 0, 0, 0];

/// How many pongs a peer without end sends at a time: fewer than a read has room for.
const PONGS: usize = 8192;

/// A peer that sends its request, and then these bytes without end.
#[derive(Drop)]
struct Endless<'a> {
    has_asked: bool,
    bytes: &'a [u8],
}

impl Read for Endless<'_> {
    fn read(&mut self, buf: &mut [u8]) -> io::Result<usize> {
        if !self.has_asked {
            self.has_asked = true;
            let mut request = REQUEST;
            return request.read(buf);
        }
        let n = self.bytes.len().min(buf.len());
        buf[..n].copy_from_slice(&self.bytes[..n]);
        Ok(n)
    }
}

/// Pongs, one after another.
fn many_pongs(rt: &impl Abort, alloc: Global) -> Vec<u8> {
    let mut bytes = Vec::new(alloc);
    for _ in 0..PONGS {
        bytes.extend_from_slice(PONG_FRAME).expect(rt, "memory");
    }
    bytes
}

#[test]
fn behind_a_million_messages_the_session_closes(rt: HostRuntime) {
    let alloc = rt.alloc();
    let shared = registry(&rt, alloc);
    let pongs = many_pongs(&rt, alloc);
    let peer = Endless {
        has_asked: false,
        bytes: pongs.as_slice(),
    };
    let (end, told) = talked(&rt, alloc, &shared, 1, peer, &OpenGate);
    claim(&rt, end == SessionEnd::Closed, "the end");
    let is_told = told.as_slice() == b"close 1000\n".as_slice();
    claim(&rt, is_told, "what is told");
    drop((shared, pongs, told));
}
