//! What connections send and are sent, by bytes: the request (RFC 6455, sections 1.3 and 4), and frames of fewer than 126 bytes, from their
//! first byte on (section 5.2). The texts are those of docs/PROTOCOL.md.

use crate::tests::hall::command::answer_of;
use crate::tests::hall::room::TWICE;
use crate::tests::parts::front;
use crate::tests::service::people::Saying;
use c960_game::Outcome;
use std::process::Abort;

/// What follows the target in a request for a WebSocket. The key is that of section 1.3.
pub const BEHIND_TARGET: &[u8] =
    b" HTTP/1.1\r\nHost: a\r\nConnection: upgrade\r\nUpgrade: websocket\r\nSec-WebSocket-Version: 13\r\nSec-WebSocket-Key: dGhlIHNhbXBsZSBub25jZQ==\r\n\r\n";

/// The answer to such a request.
pub const ACCEPTED: &[u8] =
    b"HTTP/1.1 101 Switching Protocols\r\nconnection: Upgrade\r\nupgrade: websocket\r\nsec-websocket-accept: s3pPLMBiTxaQ9kYGzzhZRbK+xOo=\r\n\r\n";

/// The first byte of a whole text.
pub const TEXT: u8 = 0x81;

/// Of a close.
pub const CLOSE: u8 = 0x88;

/// Of a ping.
pub const PING: u8 = 0x89;

/// Of a pong.
pub const PONG: u8 = 0x8a;

/// The moves of a board, each with its place.
static MOVED: [&str; 10] = [
    "{\"move\":\"g1f3\",\"place\":0,\"reply\":\"move\"}",
    "{\"move\":\"g8f6\",\"place\":1,\"reply\":\"move\"}",
    "{\"move\":\"f3g1\",\"place\":2,\"reply\":\"move\"}",
    "{\"move\":\"f6g8\",\"place\":3,\"reply\":\"move\"}",
    "{\"move\":\"g1f3\",\"place\":4,\"reply\":\"move\"}",
    "{\"move\":\"g8f6\",\"place\":5,\"reply\":\"move\"}",
    "{\"move\":\"f3g1\",\"place\":6,\"reply\":\"move\"}",
    "{\"move\":\"f6g8\",\"place\":7,\"reply\":\"move\"}",
    "{\"move\":\"g1f3\",\"place\":8,\"reply\":\"move\"}",
    "{\"move\":\"g8f6\",\"place\":9,\"reply\":\"move\"}",
];

const CUT: &str = "{\"reply\":\"cut\"}";

const ABANDONED: &str = "{\"outcome\":\"abandoned\",\"reply\":\"ended\"}";

/// What the answer to an end has behind the outcome, and what tells followers of it.
const BEHIND_ENDED: &str = "ended\"}";

const BEHIND_OVER: &str = "over\"}";

/// What a ping has, and its pong.
pub const PAYLOAD: &[u8] = b"there?";

/// How many bytes a message has. With a head of 6 each, the sixth is beyond 65,536 bytes.
pub const MESSAGE: usize = 12000;

/// The first bytes of such a message, masked with zeros (RFC 6455, section 5.2).
const MESSAGE_HEAD: &[u8] = &[0x82, 0xfe, 0x2e, 0xe0, 0, 0, 0, 0];

const HUNDRED: &[u8; 100] = &[b'-'; 100];

fn moved() -> &'static [&'static str] {
    &MOVED
}

/// Appends bytes. If it is refused memory, it asks again.
pub fn add(rt: &impl Abort, list: &mut Vec<u8>, bytes: &[u8]) {
    if list.extend_from_slice(bytes).is_err() {
        list.extend_from_slice(bytes).expect(rt, TWICE);
    }
}

/// Appends the head of a frame as a client sends it, masked with zeros.
fn ask_head(rt: &impl Abort, bytes: &mut Vec<u8>, first: u8, size: usize) {
    let size = 0x80 | (size % 126) as u8;
    add(rt, bytes, &[first, size, 0, 0, 0, 0]);
}

/// Appends a frame as a client sends it.
fn ask(rt: &impl Abort, bytes: &mut Vec<u8>, first: u8, payload: &[u8]) {
    ask_head(rt, bytes, first, payload.len());
    add(rt, bytes, payload);
}

/// Appends the frame of a text that consists of these pieces.
pub fn ask_text(rt: &impl Abort, bytes: &mut Vec<u8>, pieces: &[&'static str]) {
    let mut size = 0usize;
    for piece in pieces {
        size = size.wrapping_add(piece.len());
    }
    ask_head(rt, bytes, TEXT, size);
    for piece in pieces {
        add(rt, bytes, piece.as_bytes());
    }
}

/// Appends a frame as a server sends it.
pub fn tell(rt: &impl Abort, bytes: &mut Vec<u8>, first: u8, payload: &[u8]) {
    add(rt, bytes, &[first, (payload.len() % 126) as u8]);
    add(rt, bytes, payload);
}

/// Appends the frame of the move of this place.
pub fn tell_move(rt: &impl Abort, bytes: &mut Vec<u8>, place: u16) {
    let text = moved().get(usize::from(place)).copied().unwrap_or("");
    tell(rt, bytes, TEXT, text.as_bytes());
}

/// Appends a close with this code.
pub fn tell_close(rt: &impl Abort, bytes: &mut Vec<u8>, code: u16) {
    tell(rt, bytes, CLOSE, &[(code >> 8) as u8, (code & 255) as u8]);
}

/// Appends that a follower was cut off, and the close.
pub fn tell_cut(rt: &impl Abort, bytes: &mut Vec<u8>) {
    tell(rt, bytes, TEXT, CUT.as_bytes());
    tell_close(rt, bytes, 4001);
}

/// Appends that a game has ended so, and the close.
pub fn tell_over(rt: &impl Abort, bytes: &mut Vec<u8>, outcome: Outcome, is_ending: bool) {
    let answer = answer_of(outcome).unwrap_or(ABANDONED).as_bytes();
    let kept = answer.len().saturating_sub(BEHIND_ENDED.len());
    let size = kept.wrapping_add(BEHIND_OVER.len());
    add(rt, bytes, &[TEXT, (size % 126) as u8]);
    add(rt, bytes, front(answer, kept));
    add(rt, bytes, BEHIND_OVER.as_bytes());
    tell_close(rt, bytes, if is_ending { 1001 } else { 1000 });
}

/// Appends a message that nobody answers.
fn say_message(rt: &impl Abort, bytes: &mut Vec<u8>) {
    add(rt, bytes, MESSAGE_HEAD);
    for _ in 0..120u32 {
        add(rt, bytes, HUNDRED.as_slice());
    }
}

/// Appends the bytes of what is said.
pub fn say(rt: &impl Abort, bytes: &mut Vec<u8>, saying: Saying) {
    match saying {
        Saying::Ping => ask(rt, bytes, PING, PAYLOAD),
        Saying::Pong => ask(rt, bytes, PONG, b""),
        Saying::Message => say_message(rt, bytes),
        Saying::Close => ask(rt, bytes, CLOSE, &[0x03, 0xe8]),
        Saying::Breach => ask(rt, bytes, 0xc1, b""),
    }
}
