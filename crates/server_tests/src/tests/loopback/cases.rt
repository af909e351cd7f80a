//! Worked cases.

use crate::tests::claims::claim;
use crate::tests::loopback::peer::Client;
use crate::tests::loopback::served::serving;
use relay_server::{Gate, OpenGate};
use std::process::Abort;
use std::sync::Arc;
use std::sync::atomic::{AtomicBool, AtomicU64, Ordering};

const OPEN_B1: &[u8] = b"{\"cmd\":\"open\",\"board\":\"b1\",\"start\":518}";

const OPEN_B2: &[u8] = b"{\"cmd\":\"open\",\"board\":\"b2\",\"start\":0}";

const OPENED: &[u8] = b"{\"reply\":\"opened\"}";

const FOLLOW_B1: &[u8] = b"{\"cmd\":\"follow\",\"board\":\"b1\",\"spectator\":1}";

const FOLLOW_B1_FROM_0: &[u8] = b"{\"cmd\":\"follow\",\"board\":\"b1\",\"spectator\":1,\"from\":0}";

const FOLLOWING: &[u8] =
    b"{\"fen\":\"rnbqkbnr/pppppppp/8/8/8/8/PPPPPPPP/RNBQKBNR w HAha - 0 1\",\"joined\":0,\"reply\":\"following\"}";

const BLACK_MOVES: &[u8] = b"{\"cmd\":\"submit\",\"board\":\"b1\",\"move\":\"e7e5\"}";

/// Moves, each with the answer to it.
static PLAYED: [(&[u8], &[u8]); 3] = [
    (
        b"{\"cmd\":\"submit\",\"board\":\"b1\",\"move\":\"e2e4\"}",
        b"{\"outcome\":null,\"place\":0,\"reply\":\"played\"}",
    ),
    (
        BLACK_MOVES,
        b"{\"outcome\":null,\"place\":1,\"reply\":\"played\"}",
    ),
    (
        b"{\"cmd\":\"submit\",\"board\":\"b1\",\"move\":\"g1f3\"}",
        b"{\"outcome\":null,\"place\":2,\"reply\":\"played\"}",
    ),
];

const FIRST_MOVE: &[u8] = b"{\"move\":\"e2e4\",\"place\":0,\"reply\":\"move\"}";

const SECOND_MOVE: &[u8] = b"{\"move\":\"e7e5\",\"place\":1,\"reply\":\"move\"}";

const END_AGREED: &[u8] = b"{\"cmd\":\"end\",\"board\":\"b1\",\"how\":\"agreed\"}";

const ENDED: &[u8] = b"{\"outcome\":\"agreed\",\"reply\":\"ended\"}";

const OVER: &[u8] = b"{\"outcome\":\"agreed\",\"reply\":\"over\"}";

const ABANDONED: &[u8] = b"{\"outcome\":\"abandoned\",\"reply\":\"over\"}";

const CUT: &[u8] = b"{\"reply\":\"cut\"}";

const WRONG_MODE: &[u8] = b"{\"code\":14,\"name\":\"WrongMode\",\"reply\":\"refused\"}";

const NOT_YOURS: &[u8] = b"{\"code\":13,\"name\":\"NotYourBoard\",\"reply\":\"refused\"}";

const NO_BOARD: &[u8] = b"{\"code\":1,\"name\":\"NoSuchBoard\",\"reply\":\"refused\"}";

fn played() -> &'static [(&'static [u8], &'static [u8])] {
    &PLAYED
}

/// The owner makes the first so many moves.
fn plays(rt: &impl Abort, owner: &mut Client, count: usize) {
    for at in 0..count {
        let (submit, answer) = played().get(at).expect(rt, "a move");
        owner.asks(rt, *submit, *answer);
    }
}

#[test]
fn a_follower_gets_the_move_and_the_end_and_a_stranger_is_refused(rt: HostRuntime) {
    let gate = Arc::new(rt.alloc(), OpenGate).expect(&rt, "memory");
    let server = serving(&rt, rt.alloc(), &gate, 3);
    let mut owner = server.client(&rt);
    owner.asks(&rt, OPEN_B1, OPENED);
    let mut follower = server.client(&rt);
    follower.asks(&rt, FOLLOW_B1, FOLLOWING);
    plays(&rt, &mut owner, 1);
    follower.hears(&rt, FIRST_MOVE);
    owner.asks(&rt, FOLLOW_B1, WRONG_MODE);
    let mut stranger = server.client(&rt);
    stranger.asks(&rt, BLACK_MOVES, NOT_YOURS);
    let on_b9 = b"{\"cmd\":\"submit\",\"board\":\"b9\",\"move\":\"e7e5\"}";
    stranger.asks(&rt, on_b9, NO_BOARD);
    stranger.asks(&rt, b"{\"cmd\":\"take\",\"spectator\":1}", WRONG_MODE);
    owner.asks(&rt, END_AGREED, ENDED);
    follower.hears(&rt, OVER);
    follower.is_closed(&rt, 1000);
    stranger.closes(&rt);
    owner.closes(&rt);
    server.ends(&rt, 3);
    drop((gate, follower));
}

#[test]
fn a_follower_gets_what_was_played_before_and_the_end_of_a_board_that_is_left(rt: HostRuntime) {
    let gate = Arc::new(rt.alloc(), OpenGate).expect(&rt, "memory");
    let server = serving(&rt, rt.alloc(), &gate, 2);
    let mut owner = server.client(&rt);
    owner.asks(&rt, OPEN_B1, OPENED);
    plays(&rt, &mut owner, 2);
    let mut follower = server.client(&rt);
    follower.asks(&rt, FOLLOW_B1_FROM_0, FOLLOWING);
    follower.hears(&rt, FIRST_MOVE);
    follower.hears(&rt, SECOND_MOVE);
    owner.closes(&rt);
    follower.hears(&rt, ABANDONED);
    follower.is_closed(&rt, 1000);
    server.ends(&rt, 2);
    drop((gate, follower));
}

/// How often a gate looks whether it may be passed.
const TURNS: u32 = 1_000_000_000;

/// A gate that holds a connection back until it is let through. It counts those that were held back for too long.
#[derive(Drop)]
struct Holding {
    /// Whom it holds back before the first command, and who lets that one through, once answered.
    before: (u32, u32),
    /// Whom it holds back after the first answer.
    behind: u32,
    is_open: AtomicBool,
    late: AtomicU64,
}

impl Holding {
    fn new(before: (u32, u32), behind: u32) -> Holding {
        Holding {
            before,
            behind,
            is_open: AtomicBool::new(false),
            late: AtomicU64::new(0),
        }
    }

    /// Lets through whom it holds back.
    fn open(&self) {
        self.is_open.store(true, Ordering::SeqCst);
    }

    /// Whether everybody was let through in time.
    fn was_in_time(&self) -> bool {
        self.late.load(Ordering::SeqCst) == 0
    }

    /// Waits until it is opened, at most so many turns.
    fn wait(&self) {
        for _ in 0..TURNS {
            if self.is_open.load(Ordering::SeqCst) {
                return;
            }
        }
        self.late.fetch_add(1, Ordering::SeqCst);
    }
}

impl Gate for Holding {
    fn before(&self, connection: u32) {
        if connection == self.before.0 {
            self.wait();
        }
    }

    fn after(&self, connection: u32) {
        if connection == self.before.1 {
            self.open();
        }
        if connection == self.behind {
            self.wait();
        }
    }
}

/// The first connection is answered once the second was.
#[test]
fn two_at_once(rt: HostRuntime) {
    let gate = Arc::new(rt.alloc(), Holding::new((1, 2), 0)).expect(&rt, "memory");
    let server = serving(&rt, rt.alloc(), &gate, 2);
    let mut first = server.client(&rt);
    let mut second = server.client(&rt);
    first.says(&rt, OPEN_B1);
    second.asks(&rt, OPEN_B2, OPENED);
    first.hears(&rt, OPENED);
    first.closes(&rt);
    second.closes(&rt);
    server.ends(&rt, 2);
    claim(&rt, gate.was_in_time(), "each was let through in time");
    drop(gate);
}

/// The follower is pushed nothing before the third move, which finds its queue full.
#[test]
fn a_follower_whose_queue_is_full_is_cut_off(rt: HostRuntime) {
    let gate = Arc::new(rt.alloc(), Holding::new((0, 0), 2)).expect(&rt, "memory");
    let server = serving(&rt, rt.alloc(), &gate, 2);
    let mut owner = server.client(&rt);
    owner.asks(&rt, OPEN_B1, OPENED);
    let mut follower = server.client(&rt);
    follower.asks(&rt, FOLLOW_B1, FOLLOWING);
    plays(&rt, &mut owner, 3);
    gate.open();
    for text in [FIRST_MOVE, SECOND_MOVE, CUT] {
        follower.hears(&rt, text);
    }
    follower.is_closed(&rt, 4001);
    owner.closes(&rt);
    server.ends(&rt, 2);
    claim(&rt, gate.was_in_time(), "each was let through in time");
    drop((gate, follower));
}
