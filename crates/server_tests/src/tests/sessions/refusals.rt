//! Lack of memory. If one allocation is refused, each in turn, a session says so or ends, its boards are ended, and later sessions
//! find the registry in order.

use crate::tests::claims::claim;
use crate::tests::hall::room::{TWICE, room};
use crate::tests::sessions::frames::{CLOSE, NORMAL, TEXT, behind_head, lines};
use crate::tests::sessions::peers::Peer;
use crate::tests::sessions::rows::{Frame, input};
use crate::tests::sessions::texts::{OPEN_B1, owner_frames};
use c960_game::Limits;
use relay_server::{OpenGate, Registry, SessionEnd, session};
use std::alloc::{AllocError, Global};
use std::process::Abort;
use std::sync::Wait;
use tungstenite::Duplex;

/// A registry with one board and one follower at a time, so that anything not given back is noticed.
fn new_registry(rt: &impl Abort, alloc: Global) -> Registry {
    let limits = Limits::new(1, 1, 2, 1024).expect(rt, "limits");
    match Registry::new(alloc, limits) {
        Ok(registry) => registry,
        Err(AllocError) => Registry::new(alloc, limits).expect(rt, TWICE),
    }
}

/// These frames, as bytes.
fn bytes_of(rt: &impl Abort, alloc: Global, frames: &[Frame]) -> Vec<u8> {
    match input(alloc, frames) {
        Ok(bytes) => bytes,
        Err(AllocError) => input(alloc, frames).expect(rt, TWICE),
    }
}

/// What was sent, as lines.
fn lines_of(rt: &impl Abort, alloc: Global, sent: &[u8]) -> Vec<u8> {
    match lines(alloc, sent) {
        Ok(told) => told,
        Err(AllocError) => lines(alloc, sent).expect(rt, TWICE),
    }
}

/// How many bytes a peer takes: more than any session here sends. Its room is reserved from the start: if a peer had none while something
/// is sent to it, that would be a device that fails, and not lack of memory in the session.
const ROOM: usize = 1024;

/// How a session over these frames ends, and the lines of what it sends after the response.
fn talk<R: Wait + Abort>(
    rt: &R,
    alloc: Global,
    registry: &Registry,
    connection: u32,
    frames: &[Frame],
) -> (SessionEnd, Vec<u8>) {
    let bytes = bytes_of(rt, alloc, frames);
    let mut sent: Vec<u8> = room(rt, alloc, ROOM);
    let stream = Duplex {
        reader: Peer::new(bytes.as_slice()),
        writer: &mut sent,
    };
    let end = session(rt, alloc, registry, connection, stream, &OpenGate);
    let told = lines_of(rt, alloc, behind_head(sent.as_slice()));
    drop((bytes, sent));
    (end, told)
}

fn owned() -> &'static [u8] {
    b"{\"reply\":\"opened\"}\n{\"outcome\":null,\"place\":0,\"reply\":\"played\"}\nclose 1000\n"
}

static GUEST: [Frame; 1] = [(
    TEXT,
    b"{\"cmd\":\"follow\",\"board\":\"b1\",\"spectator\":9,\"from\":0}",
)];

/// What a guest sends.
fn guest_frames() -> &'static [Frame] {
    &GUEST
}

fn followed() -> &'static [u8] {
    b"{\"fen\":\"rnbqkbnr/pppppppp/8/8/8/8/PPPPPPPP/RNBQKBNR w HAha - 0 1\",\"joined\":0,\"reply\":\"following\"}\n{\"move\":\"e2e4\",\"place\":0,\"reply\":\"move\"}\n{\"outcome\":\"abandoned\",\"reply\":\"over\"}\nclose 1000\n"
}

fn no_move() -> &'static [u8] {
    b"{\"fen\":\"rnbqkbnr/pppppppp/8/8/8/8/PPPPPPPP/RNBQKBNR w HAha - 0 1\",\"joined\":0,\"reply\":\"following\"}\n{\"outcome\":\"abandoned\",\"reply\":\"over\"}\nclose 1000\n"
}

fn no_such_board() -> &'static [u8] {
    b"{\"code\":1,\"name\":\"NoSuchBoard\",\"reply\":\"refused\"}\n"
}

/// How many guests, one after another, are told this.
fn guests_told<R: Wait + Abort>(rt: &R, alloc: Global, registry: &Registry, wanted: &[u8]) -> u32 {
    let mut count: u32 = 0;
    for connection in 2..5 {
        let (_, told) = talk(rt, alloc, registry, connection, guest_frames());
        if told.as_slice() == wanted {
            count = count.saturating_add(1);
        }
    }
    count
}

/// What the guests find is what the owner left: the board with its move, the board alone, or no board.
fn claim_left<R: Wait + Abort>(rt: &R, alloc: Global, registry: &Registry) {
    let (_, left) = talk(rt, alloc, registry, 9, guest_frames());
    let told = left.as_slice();
    let may_be_left = told == followed() || told == no_move() || told == no_such_board();
    claim(rt, may_be_left, "what is left");
    let count = guests_told(rt, alloc, registry, left.as_slice());
    claim(rt, count == 3, "each guest is told the same");
}

#[test]
fn a_refusal_ends_the_boards_and_leaves_no_seat_taken(rt: HostRuntime) {
    let alloc = rt.alloc();
    let registry = new_registry(&rt, alloc);
    let (end, told) = talk(&rt, alloc, &registry, 1, owner_frames());
    if end == SessionEnd::Closed && told.as_slice() == owned() {
        // The one refusal may hit a guest, and then the next one finds the place free.
        let count = guests_told(&rt, alloc, &registry, followed());
        claim(&rt, count >= 2, "guests follow");
    } else {
        claim_left(&rt, alloc, &registry);
    }
    drop((registry, told));
}

static OPENER: [Frame; 4] = [
    (TEXT, OPEN_B1),
    (TEXT, OPEN_B1),
    (TEXT, b"{\"cmd\":\"open\",\"board\":\"b1\",\"start\":960}"),
    (CLOSE, NORMAL),
];

/// What a peer sends that opens a board three times.
fn opener_frames() -> &'static [Frame] {
    &OPENER
}

/// What these answer, and what they answer if the first found no memory. For a name that exists no 12 is answered, whatever is refused: the
/// registry allocates nothing before it knows that. A connection without room to note another board ends its session instead.
static TOLD: [&[u8]; 2] = [
    b"{\"reply\":\"opened\"}\n{\"code\":2,\"name\":\"BoardExists\",\"reply\":\"refused\"}\n{\"code\":2,\"name\":\"BoardExists\",\"reply\":\"refused\"}\nclose 1000\n",
    b"{\"code\":12,\"name\":\"OutOfMemory\",\"reply\":\"refused\"}\n{\"reply\":\"opened\"}\n{\"code\":2,\"name\":\"BoardExists\",\"reply\":\"refused\"}\nclose 1000\n",
];

/// These answers.
fn told_to_it() -> &'static [&'static [u8]] {
    &TOLD
}

/// Whether these are such answers: all of them, or some of them if the session had ended.
fn may_be_told(told: &[u8], is_whole: bool) -> bool {
    for whole in told_to_it() {
        if told == *whole || (!is_whole && whole.starts_with(told)) {
            return true;
        }
    }
    false
}

#[test]
fn a_name_that_stands_takes_no_memory(rt: HostRuntime) {
    let registry = new_registry(&rt, rt.alloc());
    let (end, told) = talk(&rt, rt.alloc(), &registry, 1, opener_frames());
    // A session for which there was no memory ends after some of these.
    let may_be_told = may_be_told(told.as_slice(), end == SessionEnd::Closed);
    claim(&rt, may_be_told, "what is told");
    drop((registry, told));
}
