//! What spectators of a tape are sent, byte for byte. The frames are written out by RFC 6455, section 5.2: a whole text is `\x81`, a close
//! `\x88`, followed by the payload's length, from 126 on as `\x7e` and two bytes.

use crate::tests::claims::{claim, claim_at};
use crate::tests::values::{BLACK_MATES, START_518, move_of, position_of};
use c960_board::{Position, read_fen};
use relay_watching::{SpectatorConnection, Tape};
use std::alloc::Global;
use std::process::Abort;

/// What one is sent that joins at the start: the greeting, the four moves, of which each has a frame of 42 bytes, the end, and the close.
/// Then what one is sent that joins at place 1.
static SENT: [&[u8]; 2] = [
    b"\x81\x61{\"fen\":\"rnbqkbnr/pppppppp/8/8/8/8/PPPPPPPP/RNBQKBNR w HAha - 0 1\",\"joined\":0,\"reply\":\"following\"}\x81\x28{\"move\":\"f2f3\",\"place\":0,\"reply\":\"move\"}\x81\x28{\"move\":\"e7e5\",\"place\":1,\"reply\":\"move\"}\x81\x28{\"move\":\"g2g4\",\"place\":2,\"reply\":\"move\"}\x81\x28{\"move\":\"d8h4\",\"place\":3,\"reply\":\"move\"}\x81\x28{\"outcome\":\"black mates\",\"reply\":\"over\"}\x88\x02\x03\xe8",
    b"\x81\x63{\"fen\":\"rnbqkbnr/pppppppp/8/8/8/5P2/PPPPP1PP/RNBQKBNR b HAha - 0 1\",\"joined\":1,\"reply\":\"following\"}\x81\x28{\"move\":\"e7e5\",\"place\":1,\"reply\":\"move\"}\x81\x28{\"move\":\"g2g4\",\"place\":2,\"reply\":\"move\"}\x81\x28{\"move\":\"d8h4\",\"place\":3,\"reply\":\"move\"}\x81\x28{\"outcome\":\"black mates\",\"reply\":\"over\"}\x88\x02\x03\xe8",
];

/// What they are sent.
fn sent() -> &'static [&'static [u8]; 2] {
    &SENT
}

/// The position at place 1.
const PLACE_1: &str = "rnbqkbnr/pppppppp/8/8/8/5P2/PPPPP1PP/RNBQKBNR b HAha - 0 1";

/// A position whose text is long, and the greeting at it.
static CROWDED: (&[u8], &[u8]) = (
    b"r1b1k1r1/p1p1p1p1/1p1p1p1p/n1b1q1n1/N1B1Q1N1/1P1P1P1P/P1P1P1P1/R1B1K1R1 w GAga - 99 999",
    b"\x81\x7e\0\x80{\"fen\":\"r1b1k1r1/p1p1p1p1/1p1p1p1p/n1b1q1n1/N1B1Q1N1/1P1P1P1P/P1P1P1P1/R1B1K1R1 w GAga - 99 999\",\"joined\":0,\"reply\":\"following\"}",
);

/// That position, and the greeting.
fn crowded() -> &'static (&'static [u8], &'static [u8]) {
    &CROWDED
}

/// A spectator, and what it has yet to be sent.
#[derive(Drop)]
struct Watcher {
    spectator: SpectatorConnection,
    rest: &'static [u8],
}

/// Asserts that everything that is due, written at most `most` bytes at a time, is what was to be sent next.
fn write_all(rt: &impl Abort, watcher: &mut Watcher, tape: &Tape, most: usize) {
    for _ in 0..1000 {
        let due = watcher.spectator.due(tape);
        if due.is_empty() {
            break;
        }
        let n = due.len().min(most);
        claim(rt, watcher.rest.starts_with(&due[..n]), "what is sent next");
        watcher.rest = watcher.rest.get(n..).unwrap_or(&[]);
        watcher.spectator.wrote(tape, n);
    }
}

/// Puts a move on a tape.
fn make(rt: &impl Abort, tape: &mut Tape, text: &str) {
    // What is put on a tape rests on it, so it is asserted here.
    assert!(rt; !tape.is_over() && tape.len() < 65535);
    tape.push(move_of(rt, text)).expect(rt, "memory");
}

/// A spectator joins at a place.
fn join(
    rt: &impl Abort,
    tape: &Tape,
    place: u16,
    position: &Position,
    rest: &'static [u8],
) -> Watcher {
    assert!(rt; usize::from(place) <= tape.len());
    let spectator = tape.join(place, position).expect(rt, "memory");
    Watcher { spectator, rest }
}

/// Asserts that a spectator has been sent everything, and that nothing comes any more.
fn assert_done(rt: &impl Abort, watcher: &Watcher, tape: &Tape) {
    claim(rt, watcher.rest.is_empty(), "all is sent");
    claim(rt, watcher.spectator.is_done(tape), "it is done");
}

/// Asserts what is sent, in pieces of at most `most` bytes, to a spectator that joined at the start before the first move, and to one that
/// joined at place 1 after the second, through four moves to a mate.
fn assert_sent(rt: &impl Abort, alloc: Global, most: usize) {
    let [from_the_start, later] = *sent();
    let mut tape = Tape::new(alloc);
    let mut first = join(rt, &tape, 0, &position_of(rt, START_518), from_the_start);
    write_all(rt, &mut first, &tape, most);
    make(rt, &mut tape, "f2f3");
    make(rt, &mut tape, "e7e5");
    let mut second = join(rt, &tape, 1, &position_of(rt, PLACE_1), later);
    write_all(rt, &mut first, &tape, most);
    make(rt, &mut tape, "g2g4");
    write_all(rt, &mut second, &tape, most);
    make(rt, &mut tape, "d8h4");
    write_all(rt, &mut second, &tape, most);
    claim(rt, !second.spectator.is_done(&tape), "it goes on");
    assert!(rt; !tape.is_over());
    tape.finish(BLACK_MATES).expect(rt, "memory");
    write_all(rt, &mut first, &tape, most);
    write_all(rt, &mut second, &tape, most);
    assert_done(rt, &first, &tape);
    assert_done(rt, &second, &tape);
    drop((first, second, tape));
}

#[test]
fn each_is_sent_the_frames_from_its_place_on(rt: HostRuntime) {
    for most in [1, 2, 41, 42, 43, 1000] {
        assert_sent(&rt, rt.alloc(), most);
    }
}

/// Another frame may be written after the greeting and after each move, and nowhere else.
#[test]
fn other_frames_go_between_frames(rt: HostRuntime) {
    let mut tape = Tape::new(rt.alloc());
    let start = Position::start(518).expect(&rt, "a start");
    let mut spectator = tape.join(0, &start).expect(&rt, "memory");
    let moves = [move_of(&rt, "f2f3"), move_of(&rt, "e7e5")];
    tape.push_all(&moves).expect(&rt, "memory");
    for k in 0..183 {
        let is_between = spectator.is_between_frames(&tape);
        claim_at(&rt, is_between == (k == 99 || k == 141), "byte", k);
        // What is written rests on it, so it is asserted here.
        assert!(rt; !spectator.due(&tape).is_empty(), "due behind {k}");
        spectator.wrote(&tape, 1);
    }
    claim(
        &rt,
        spectator.is_between_frames(&tape),
        "behind the last frame",
    );
    claim(&rt, spectator.due(&tape).is_empty(), "nothing is due");
    drop((spectator, tape));
}

#[test]
fn a_long_greeting_has_its_length_in_two_bytes(rt: HostRuntime) {
    let tape = Tape::new(rt.alloc());
    let position = read_fen(crowded().0).expect(&rt, "a position");
    let spectator = tape.join(0, &position).expect(&rt, "memory");
    claim(&rt, spectator.due(&tape) == crowded().1, "the greeting");
    drop((spectator, tape));
}
