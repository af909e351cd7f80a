//! Random events: sixty connections, six keys, three graces, and bytes in pieces of any size. After each event the service shows what the
//! plain model has, and to each connection is due what the model answered it.

use crate::tests::claims::{claim, claim_of};
use crate::tests::hall::answers::{
    AGREED, BAD_START, BLACK_LOSES_ON_TIME, BLACK_RESIGNS, BLACK_WINS, BOARD_EXISTS, CLAIM_REFUSED,
    DRAWN, GAME_OVER, ILLEGAL, LOG_FULL, NO_SUCH_BOARD, NOT_YET, NOT_YOUR_BOARD, OPENED, THREEFOLD,
    TOO_FAR_BACK, TOO_MANY_BOARDS, TOO_MANY_FOLLOWERS, WHITE_LOSES_ON_TIME, WHITE_WINS, WRONG_MODE,
};
use crate::tests::hall::seen::Seen;
use crate::tests::service::people::people;
use crate::tests::service::scene::Scene;
use std::alloc::Global;
use std::process::Abort;

/// How many services there are for each grace, and how many events in each.
const SERVICES: u32 = 40;

const EVENTS: u32 = 4000;

/// What occurs with any grace.
static WORDS: [&str; 33] = [
    "played",
    "following",
    "nothing yet",
    "over",
    "over, as the server ends",
    "cut",
    "closes",
    "breach",
    "too many messages",
    "closed",
    "gone",
    OPENED,
    AGREED,
    BLACK_RESIGNS,
    WHITE_LOSES_ON_TIME,
    BLACK_LOSES_ON_TIME,
    WHITE_WINS,
    BLACK_WINS,
    DRAWN,
    THREEFOLD,
    NO_SUCH_BOARD,
    BOARD_EXISTS,
    BAD_START,
    TOO_MANY_BOARDS,
    GAME_OVER,
    ILLEGAL,
    LOG_FULL,
    CLAIM_REFUSED,
    TOO_MANY_FOLLOWERS,
    NOT_YOUR_BOARD,
    WRONG_MODE,
    TOO_FAR_BACK,
    NOT_YET,
];

/// What occurs if there is a grace.
static WAITING: [&str; 4] = ["waits", "came back", "ran out", "shut out"];

fn words() -> &'static [&'static str] {
    &WORDS
}

fn waiting() -> &'static [&'static str] {
    &WAITING
}

/// A service with this grace in milliseconds. Notes what has occurred.
fn run_one(rt: &impl Abort, alloc: Global, grace: u64, seed: u32, seen: &mut Seen) {
    let mut people = people(rt, alloc);
    let mut scene = Scene::new(rt, alloc, grace, seed);
    for _ in 0..EVENTS {
        scene.happens(rt, people.as_mut_slice());
    }
    claim(rt, scene.refused == 0, "no memory was refused");
    scene.notes(seen);
    drop((people, scene));
}

/// All of these words have occurred, or none.
fn assert_seen(rt: &impl Abort, seen: &Seen, words: &'static [&'static str], all: bool) {
    for word in words {
        claim_of(rt, seen.has(*word) == all, "the occurrence", *word);
    }
}

/// Services with this grace in milliseconds. All that occurs with any grace has occurred, and what occurs if there is one exactly then.
fn run(rt: &impl Abort, alloc: Global, grace: u64) {
    let mut seen = Seen::new(rt, alloc);
    for seed in 0..SERVICES {
        run_one(rt, alloc, grace, seed, &mut seen);
    }
    assert_seen(rt, &seen, words(), true);
    assert_seen(rt, &seen, waiting(), grace > 0);
}

#[test]
fn a_service_without_a_grace_is_the_plain_one(rt: HostRuntime) {
    run(&rt, rt.alloc(), 0);
}

#[test]
fn a_service_with_a_short_grace_is_the_plain_one(rt: HostRuntime) {
    run(&rt, rt.alloc(), 40);
}

#[test]
fn a_service_with_a_grace_is_the_plain_one(rt: HostRuntime) {
    run(&rt, rt.alloc(), 150);
}
