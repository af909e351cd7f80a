//! Sessions on threads of their own share one registry.

use crate::tests::claims::{claim, claim_at};
use crate::tests::sessions::frames::{CLOSE, NORMAL, TEXT, add_frame};
use crate::tests::sessions::peers::Peer;
use crate::tests::sessions::rows::{is_told, registry};
use relay_server::{OpenGate, Registry, SessionEnd};
use std::alloc::{AllocError, Global};
use std::process::Abort;
use std::sync::{Arc, Wait};
use std::thread::{JoinHandle, Threads, spawn};

/// How many threads there are.
const THREADS: u32 = 6;

/// How often each opens a board and makes a move there.
const BOARDS: u32 = 2;

/// Appends a text in a frame.
fn add_text(rt: &impl Abort, bytes: &mut Vec<u8>, text: Result<String, AllocError>) {
    let text = text.expect(rt, "memory");
    add_frame(bytes, TEXT, text.as_str().as_bytes()).expect(rt, "memory");
}

/// What an owner sends of its boards: each is opened, and has a move.
fn owner(rt: &impl Abort, alloc: Global, number: u32) -> Vec<u8> {
    let mut bytes = Vec::new(alloc);
    for board in 0..BOARDS {
        let open = format!(in alloc;
            "{{\"cmd\":\"open\",\"board\":\"b{number}-{board}\",\"start\":518}}"
        );
        add_text(rt, &mut bytes, open);
        let submit = format!(in alloc;
            "{{\"cmd\":\"submit\",\"board\":\"b{number}-{board}\",\"move\":\"e2e4\"}}"
        );
        add_text(rt, &mut bytes, submit);
    }
    add_frame(&mut bytes, CLOSE, NORMAL).expect(rt, "memory");
    bytes
}

/// What a guest sends to follow a board from its start.
fn guest(rt: &impl Abort, alloc: Global, number: u32, board: u32) -> Vec<u8> {
    let mut bytes = Vec::new(alloc);
    let follow = format!(in alloc;
        "{{\"cmd\":\"follow\",\"board\":\"b{number}-{board}\",\"spectator\":1,\"from\":0}}"
    );
    add_text(rt, &mut bytes, follow);
    bytes
}

/// Whether an owner's session closes, with each command done.
fn owns<R: Wait + Abort>(rt: &R, alloc: Global, registry: &Registry, number: u32) -> bool {
    let bytes = owner(rt, alloc, number);
    let (peer, wanted) = (Peer::new(&bytes), (SessionEnd::Closed, OWNED));
    is_told(rt, alloc, registry, number, peer, &OpenGate, wanted)
}

const OWNED: &[u8] =
    b"{\"reply\":\"opened\"}\n{\"outcome\":null,\"place\":0,\"reply\":\"played\"}\n{\"reply\":\"opened\"}\n{\"outcome\":null,\"place\":0,\"reply\":\"played\"}\nclose 1000\n";

const FOLLOWED: &[u8] =
    b"{\"fen\":\"rnbqkbnr/pppppppp/8/8/8/8/PPPPPPPP/RNBQKBNR w HAha - 0 1\",\"joined\":0,\"reply\":\"following\"}\n{\"move\":\"e2e4\",\"place\":0,\"reply\":\"move\"}\n{\"outcome\":\"abandoned\",\"reply\":\"over\"}\nclose 1000\n";

/// Each board of an owner is followed from its start to its end.
fn assert_followed<R: Wait + Abort>(rt: &R, alloc: Global, registry: &Registry, number: u32) {
    for board in 0..BOARDS {
        let bytes = guest(rt, alloc, number, board);
        let (peer, wanted) = (Peer::new(&bytes), (SessionEnd::Over, FOLLOWED));
        let is_followed = is_told(rt, alloc, registry, 100, peer, &OpenGate, wanted);
        claim_at(rt, is_followed, "followed: board", board as usize);
    }
}

/// A thread of this number, on which an owner's session closes.
fn started<R>(rt: &R, alloc: Global, held: &Arc<Registry, Global>, number: u32) -> JoinHandle<bool>
where
    R: Threads + Wait + Abort + Clone + Send + Drop + 'static,
{
    let own = rt.clone().expect(rt, "a handle");
    let of_thread = Arc::try_clone(held).expect(rt, "few owners");
    let started = spawn(rt, move || owns(&own, alloc, &of_thread, number));
    started.expect(rt, "a thread")
}

#[test]
fn threads_open_and_play_boards_of_one_registry(rt: HostRuntime) {
    let alloc = rt.alloc();
    let shared = Arc::new(alloc, registry(&rt, alloc)).expect(&rt, "memory");
    let mut threads = Vec::new(alloc);
    for number in 0..THREADS {
        let thread = started(&rt, alloc, &shared, number);
        threads.push(thread).expect(&rt, "memory");
    }
    for thread in threads {
        claim(&rt, thread.join(&rt), "an owner's session");
    }
    for number in 0..THREADS {
        assert_followed(&rt, alloc, &shared, number);
    }
    drop(shared);
}
