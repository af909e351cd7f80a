//! What peers send over a stream in memory, and how their sessions end.

use crate::tests::sessions::frames::{
    BINARY, CLOSE, FIRST_PART, LAST_PART, NORMAL, PING, TEXT, add_frame, behind_head, lines,
};
use c960_game::Limits;
use relay_server::{Gate, Registry, SessionEnd, session};
use std::alloc::{AllocError, Global};
use std::io::Read;
use std::process::Abort;
use std::sync::Wait;
use tungstenite::Duplex;

const OPEN_B1: &[u8] = b"{\"board\":\"b1\",\"cmd\":\"open\",\"start\":518}";

const OPEN_B2: &[u8] = b"{\"board\":\"b2\",\"cmd\":\"open\",\"start\":518}";

/// The longest text allowed, and one that is too long.
const LONGEST: [u8; 1024] = [b' '; 1024];

const TOO_LONG: [u8; 1025] = [b' '; 1025];

/// A frame's first byte, and its payload.
pub type Frame = (u8, &'static [u8]);

/// The frames that a peer sends; how many bytes are cut off at their end; how the session ends; what it answers, as lines; and how
/// often the gate was notified of a first command, and of its answer.
pub type Row = (
    &'static [Frame],
    usize,
    SessionEnd,
    &'static [u8],
    (u64, u64),
);

static ROWS: [Row; 6] = [
    // There is no command, and so nothing for the gate.
    (
        &[(PING, b""), (CLOSE, NORMAL)],
        0,
        SessionEnd::Closed,
        b"opcode 138\nclose 1000\n",
        (0, 0),
    ),
    // A ping, a binary message, a text that is too long and one that is not, a text in two parts, a command that nobody may make.
    (
        &[
            (TEXT, OPEN_B1),
            (PING, b"here"),
            (BINARY, OPEN_B1),
            (TEXT, &TOO_LONG),
            (TEXT, &LONGEST),
            (FIRST_PART, b"{\"cmd\":\"submit\",\"bo"),
            (LAST_PART, b"ard\":\"b1\",\"move\":\"e2e4\"}"),
            (TEXT, b"{\"cmd\":\"take\",\"spectator\":1}"),
            (CLOSE, NORMAL),
        ],
        0,
        SessionEnd::Closed,
        b"{\"reply\":\"opened\"}\nopcode 138\n{\"code\":21,\"name\":\"NotJson\",\"reply\":\"refused\"}\n{\"code\":24,\"name\":\"BadField\",\"reply\":\"refused\"}\n{\"code\":21,\"name\":\"NotJson\",\"reply\":\"refused\"}\n{\"outcome\":null,\"place\":0,\"reply\":\"played\"}\n{\"code\":14,\"name\":\"WrongMode\",\"reply\":\"refused\"}\nclose 1000\n",
        (1, 1),
    ),
    // Its board is over.
    (
        &[(
            TEXT,
            b"{\"cmd\":\"follow\",\"board\":\"b1\",\"spectator\":9}",
        )],
        0,
        SessionEnd::Over,
        b"{\"fen\":\"rnbqkbnr/pppppppp/8/8/4P3/8/PPPP1PPP/RNBQKBNR b HAha e3 0 1\",\"joined\":1,\"reply\":\"following\"}\n{\"outcome\":\"abandoned\",\"reply\":\"over\"}\nclose 1000\n",
        (1, 1),
    ),
    // A binary message is a first command, too.
    (
        &[(BINARY, OPEN_B2), (CLOSE, NORMAL)],
        0,
        SessionEnd::Closed,
        b"{\"code\":21,\"name\":\"NotJson\",\"reply\":\"refused\"}\nclose 1000\n",
        (1, 1),
    ),
    // A stream that ends in the middle of a frame, and then the board that was opened before.
    (
        &[(TEXT, OPEN_B2), (TEXT, OPEN_B2)],
        9,
        SessionEnd::Failed,
        b"{\"reply\":\"opened\"}\n",
        (1, 1),
    ),
    (
        &[(
            TEXT,
            b"{\"cmd\":\"follow\",\"board\":\"b2\",\"spectator\":9}",
        )],
        0,
        SessionEnd::Over,
        b"{\"fen\":\"rnbqkbnr/pppppppp/8/8/8/8/PPPPPPPP/RNBQKBNR w HAha - 0 1\",\"joined\":0,\"reply\":\"following\"}\n{\"outcome\":\"abandoned\",\"reply\":\"over\"}\nclose 1000\n",
        (1, 1),
    ),
];

/// The rows.
pub fn rows() -> &'static [Row] {
    &ROWS
}

/// A registry with the default limits.
pub fn registry(rt: &impl Abort, alloc: Global) -> Registry {
    let limits = Limits::new(16, 64, 64, 1024).expect(rt, "limits");
    Registry::new(alloc, limits).expect(rt, "memory")
}

/// These frames, as bytes.
pub fn input(alloc: Global, frames: &[Frame]) -> Result<Vec<u8>, AllocError> {
    let mut bytes = Vec::new(alloc);
    for (first, payload) in frames {
        add_frame(&mut bytes, *first, payload)?;
    }
    Ok(bytes)
}

/// How the session of a peer ends, and what it is answered, as lines.
pub fn talked<R: Wait + Abort, P: Read + Drop, G: Gate>(
    rt: &R,
    alloc: Global,
    registry: &Registry,
    connection: u32,
    peer: P,
    gate: &G,
) -> (SessionEnd, Vec<u8>) {
    let mut sent = Vec::new(alloc);
    let stream = Duplex {
        reader: peer,
        writer: &mut sent,
    };
    let end = session(rt, alloc, registry, connection, stream, gate);
    let told = lines(alloc, behind_head(sent.as_slice())).expect(rt, "memory");
    (end, told)
}

/// Whether the session of a peer ends so, and is answered in these lines.
pub fn is_told<R: Wait + Abort, P: Read + Drop, G: Gate>(
    rt: &R,
    alloc: Global,
    registry: &Registry,
    connection: u32,
    peer: P,
    gate: &G,
    wanted: (SessionEnd, &[u8]),
) -> bool {
    let (end, told) = talked(rt, alloc, registry, connection, peer, gate);
    end == wanted.0 && told.as_slice() == wanted.1
}
