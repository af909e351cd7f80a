//! What `relay_frames` does and no session shows: the bytes of a pong and of a binary message, at which nobody looks, those of a ping that
//! has some, and the lengths of texts that no answer has. All else is tried on the built server.

use crate::tests::claims::{claim, claim_at};
use relay_frames::{Event, Peer, outgoing};
use std::alloc::Global;
use std::process::Abort;

/// "Hello" as in the examples of RFC 6455, section 5.7, as a pong and as a binary message.
const PONG: &[u8] = b"\x8a\x85\x37\xfa\x21\x3d\x7f\x9f\x4d\x51\x58";

const BINARY: &[u8] = b"\x82\x85\x37\xfa\x21\x3d\x7f\x9f\x4d\x51\x58";

/// Whether the first event of these bytes is a pong or a binary message, as it is said, and has these bytes.
fn is_hello(rt: &impl Abort, alloc: Global, bytes: &[u8], is_pong: bool) -> bool {
    let mut peer = Peer::new(alloc);
    peer.feed(bytes).expect(rt, "memory");
    let event = peer.next().expect(rt, "memory");
    let says_hello = says_hello(&event, is_pong);
    drop((event, peer));
    says_hello
}

/// Whether an event is a pong or a binary message, as it is said, and has these bytes.
fn says_hello(event: &Option<Event>, is_pong: bool) -> bool {
    match event {
        Some(Event::Pong(payload)) => is_pong && payload.as_slice() == b"Hello".as_slice(),
        Some(Event::Binary(payload)) => !is_pong && payload.as_slice() == b"Hello".as_slice(),
        _ => false,
    }
}

#[test]
fn a_masked_pong_and_a_masked_binary_message(rt: HostRuntime) {
    claim(&rt, is_hello(&rt, rt.alloc(), PONG, true), "a pong");
    let is_binary = is_hello(&rt, rt.alloc(), BINARY, false);
    claim(&rt, is_binary, "a binary message");
}

#[test]
fn a_ping_has_its_bytes(rt: HostRuntime) {
    let mut out = Vec::new(rt.alloc());
    outgoing::ping(b"Hello", &mut out).expect(&rt, "memory");
    claim(&rt, out.as_slice() == b"\x89\x05Hello".as_slice(), "a ping");
}

/// Numbers of bytes of a text, and the head of its frame: from 126 on two more bytes have the number, and from 65,536 on eight.
const HEADS: [(usize, &[u8]); 5] = [
    (125, b"\x81\x7d"),
    (126, b"\x81\x7e\0\x7e"),
    (256, b"\x81\x7e\x01\0"),
    (65_535, b"\x81\x7e\xff\xff"),
    (65_536, b"\x81\x7f\0\0\0\0\0\x01\0\0"),
];

/// Whether the frame of a text of so many letters is this head and the text.
fn is_written(rt: &impl Abort, alloc: Global, size: usize, head: &[u8]) -> bool {
    let mut text = String::new(alloc);
    for _ in 0..size {
        text.push('x').expect(rt, "memory");
    }
    let mut out = Vec::new(alloc);
    outgoing::text(text.as_str(), &mut out).expect(rt, "memory");
    let is_written = out.len() == head.len().saturating_add(size)
        && out.as_slice().starts_with(head)
        && out.as_slice().ends_with(text.as_bytes());
    drop((text, out));
    is_written
}

#[test]
fn the_three_forms_of_a_length(rt: HostRuntime) {
    for (size, head) in HEADS {
        let is_written = is_written(&rt, rt.alloc(), size, head);
        claim_at(&rt, is_written, "a text of as many bytes as", size);
    }
}
