//! Worked cases, a table each: what is asked of a relay, and what either kind has to answer.

use crate::tests::relays::table::Asked::{
    End, Follow, FollowFrom, Leave, Open, Submit, SubmitLine, Take,
};
use crate::tests::relays::table::Told::{
    Cut, Ended, Following, Left, Nothing, Opened, Over, Played, PlayedLast, Refused, Took,
};
use crate::tests::relays::table::{Asked, Told, assert_case};
use crate::tests::values::{
    BLACK_MATES, FOUR_PLIES, MATED, NINETY_EIGHT, ONE_PLY, SHUFFLE, START_0, START_518,
    THREE_PLIES, TWO_PLIES,
};
use c960_board::Colour;
use c960_game::{Ending, Outcome, Refusal};
use std::alloc::Global;
use std::process::Abort;

/// Two games by turns, and a spectator that goes and comes again.
const TWO_BOARDS: [(Asked, Told); 16] = [
    (Open("A", 518), Opened),
    (Open("B", 0), Opened),
    (Follow(1, "A"), Following(0, START_518)),
    (Follow(2, "B"), Following(0, START_0)),
    (Submit("A", "e2e4"), Played(0)),
    (Submit("B", "d2d4"), Played(0)),
    (Submit("A", "e7e5"), Played(1)),
    (Take(1), Took(0, "e2e4")),
    (Take(2), Took(0, "d2d4")),
    (Submit("A", "g1f3"), Played(2)),
    (Leave(1), Left(0, 1, 3, false)),
    (Follow(1, "A"), Following(3, THREE_PLIES)),
    (Submit("A", "b8c6"), Played(3)),
    (Take(1), Took(3, "b8c6")),
    (Take(1), Nothing),
    (Take(2), Nothing),
];

const RESIGNED: Outcome = Outcome::Resigned(Colour::White);

/// What is refused on a board that has ended, and in which order.
const AFTER_AN_END: [(Asked, Told); 10] = [
    (Open("b1", 518), Opened),
    (End("b1", Ending::Resigns(Colour::White)), Ended(RESIGNED)),
    (Follow(1, "b1"), Following(0, START_518)),
    (Take(1), Over(RESIGNED)),
    (Take(2), Refused(Refusal::NoSuchFollower)),
    (Follow(1, "b1"), Refused(Refusal::FollowerExists)),
    (Follow(1, "b9"), Refused(Refusal::NoSuchBoard)),
    (End("b1", Ending::Agreed), Refused(Refusal::GameOver)),
    (Leave(1), Left(0, 0, 0, false)),
    (Leave(1), Refused(Refusal::NoSuchFollower)),
];

/// What is refused where there is room for one board and one follower, and in which order.
const AT_THE_LIMITS: [(Asked, Told); 6] = [
    (Open("a", 518), Opened),
    (Open("a", 960), Refused(Refusal::BoardExists)),
    (Open("b", 960), Refused(Refusal::BadStart)),
    (Open("b", 0), Refused(Refusal::TooManyBoards)),
    (Follow(1, "a"), Following(0, START_518)),
    (Follow(2, "a"), Refused(Refusal::TooManyFollowers)),
];

/// A queue of two moves is full when the third is made.
const FULL_QUEUE: [(Asked, Told); 10] = [
    (Open("b1", 518), Opened),
    (Follow(1, "b1"), Following(0, START_518)),
    (Submit("b1", "e2e4"), Played(0)),
    (Submit("b1", "e7e5"), Played(1)),
    (Submit("b1", "g1f3"), Played(2)),
    (Take(1), Took(0, "e2e4")),
    (Take(1), Took(1, "e7e5")),
    (Take(1), Cut),
    (Take(1), Cut),
    (Leave(1), Left(0, 2, 2, true)),
];

static FULL_QUEUE_ROWS: [(Asked, Told); 10] = FULL_QUEUE;

/// The rows of a full queue.
pub fn full_queue() -> &'static [(Asked, Told); 10] {
    &FULL_QUEUE_ROWS
}

/// An illegal move before a queue of two that is full.
const REFUSED_SUBMIT: [(Asked, Told); 10] = [
    (Open("b1", 518), Opened),
    (Follow(1, "b1"), Following(0, START_518)),
    (Submit("b1", "e2e4"), Played(0)),
    (Submit("b1", "e7e5"), Played(1)),
    (Submit("b1", "e2e4"), Refused(Refusal::Illegal)),
    (Take(1), Took(0, "e2e4")),
    (Submit("b1", "g1f3"), Played(2)),
    (Take(1), Took(1, "e7e5")),
    (Take(1), Took(2, "g1f3")),
    (Take(1), Nothing),
];

/// A mate that one follower takes move by move while another one joins after it. Only the opening and the two follows take memory.
const MATE: [(Asked, Told); 16] = [
    (Open("b1", 518), Opened),
    (Follow(1, "b1"), Following(0, START_518)),
    (Submit("b1", "f2f3"), Played(0)),
    (Submit("b1", "e7e5"), Played(1)),
    (Submit("b1", "g2g4"), Played(2)),
    (Submit("b1", "d8h4"), PlayedLast(3, BLACK_MATES)),
    (Follow(2, "b1"), Following(4, MATED)),
    (Take(1), Took(0, "f2f3")),
    (Take(1), Took(1, "e7e5")),
    (Take(1), Took(2, "g2g4")),
    (Take(1), Took(3, "d8h4")),
    (Take(1), Over(BLACK_MATES)),
    (Take(1), Over(BLACK_MATES)),
    (Submit("b1", "a2a3"), Refused(Refusal::GameOver)),
    (End("b1", Ending::Agreed), Refused(Refusal::GameOver)),
    (Leave(1), Left(0, 4, 4, false)),
];

static MATE_ROWS: [(Asked, Told); 16] = MATE;

/// The rows of a mate.
pub fn mate() -> &'static [(Asked, Told); 16] {
    &MATE_ROWS
}

/// The same with a queue of four, which holds all of the game.
const MATE_IN_A_QUEUE_OF_FOUR: [(Asked, Told); 12] = [
    (Open("b1", 518), Opened),
    (Follow(1, "b1"), Following(0, START_518)),
    (Submit("b1", "f2f3"), Played(0)),
    (Submit("b1", "e7e5"), Played(1)),
    (Submit("b1", "g2g4"), Played(2)),
    (Submit("b1", "d8h4"), PlayedLast(3, BLACK_MATES)),
    (Take(1), Took(0, "f2f3")),
    (Take(1), Took(1, "e7e5")),
    (Take(1), Took(2, "g2g4")),
    (Take(1), Took(3, "d8h4")),
    (Take(1), Over(BLACK_MATES)),
    (Leave(1), Left(0, 4, 4, false)),
];

/// With a queue of three the last move closes the follower.
const MATE_IN_A_QUEUE_OF_THREE: [(Asked, Told); 11] = [
    (Open("b1", 518), Opened),
    (Follow(1, "b1"), Following(0, START_518)),
    (Submit("b1", "f2f3"), Played(0)),
    (Submit("b1", "e7e5"), Played(1)),
    (Submit("b1", "g2g4"), Played(2)),
    (Submit("b1", "d8h4"), PlayedLast(3, BLACK_MATES)),
    (Take(1), Took(0, "f2f3")),
    (Take(1), Took(1, "e7e5")),
    (Take(1), Took(2, "g2g4")),
    (Take(1), Cut),
    (Leave(1), Left(0, 3, 3, true)),
];

/// Four moves after which the position is as before.
const KNIGHTS_OUT_AND_HOME: &str = "g8f6 g1f3 f6g8 f3g1";

const CLAIM_REFUSED: Told = Refused(Refusal::ClaimRefused);

/// The position after the first move appears for the third time after the ninth.
const THIRD_APPEARANCE: [(Asked, Told); 12] = [
    (Open("b1", 518), Opened),
    (Submit("b1", "e2e4"), Played(0)),
    (
        End("b1", Ending::ClaimThreefold(Colour::Black)),
        CLAIM_REFUSED,
    ),
    (SubmitLine("b1", KNIGHTS_OUT_AND_HOME), Played(1)),
    (
        End("b1", Ending::ClaimThreefold(Colour::Black)),
        CLAIM_REFUSED,
    ),
    (SubmitLine("b1", KNIGHTS_OUT_AND_HOME), Played(5)),
    (
        Follow(1, "b1"),
        Following(
            9,
            "rnbqkbnr/pppppppp/8/8/4P3/8/PPPP1PPP/RNBQKBNR b HAha - 8 5",
        ),
    ),
    (
        End("b1", Ending::ClaimThreefold(Colour::White)),
        CLAIM_REFUSED,
    ),
    (Take(1), Nothing),
    (
        End("b1", Ending::ClaimThreefold(Colour::Black)),
        Ended(Outcome::Threefold),
    ),
    (Take(1), Over(Outcome::Threefold)),
    (Submit("b1", "e7e5"), Refused(Refusal::GameOver)),
];

/// Places from too far back to not yet there, with queues of two moves.
const FOLLOW_FROM: [(Asked, Told); 17] = [
    (Open("b1", 518), Opened),
    (SubmitLine("b1", "e2e4 e7e5 g1f3"), Played(0)),
    (FollowFrom(1, "b1", 0), Refused(Refusal::TooFarBack)),
    (FollowFrom(1, "b1", 4), Refused(Refusal::NotYet)),
    (FollowFrom(1, "b1", 1), Following(1, ONE_PLY)),
    (Submit("b1", "b8c6"), Played(3)),
    (Take(1), Took(1, "e7e5")),
    (Take(1), Took(2, "g1f3")),
    (Take(1), Cut),
    (Leave(1), Left(1, 2, 3, true)),
    (FollowFrom(1, "b1", 4), Following(4, FOUR_PLIES)),
    (Take(1), Nothing),
    (End("b1", Ending::Agreed), Ended(Outcome::Agreed)),
    (FollowFrom(2, "b1", 2), Following(2, TWO_PLIES)),
    (Take(2), Took(2, "g1f3")),
    (Take(2), Took(3, "b8c6")),
    (Take(2), Over(Outcome::Agreed)),
];

/// A place too far back, and one that is not, on a board whose one slot is taken.
const TOO_FAR_BACK_BEFORE_FULL: [(Asked, Told); 5] = [
    (Open("b1", 518), Opened),
    (SubmitLine("b1", "e2e4 e7e5 g1f3"), Played(0)),
    (FollowFrom(1, "b1", 1), Following(1, ONE_PLY)),
    (FollowFrom(2, "b1", 0), Refused(Refusal::TooFarBack)),
    (FollowFrom(2, "b1", 2), Refused(Refusal::TooManyFollowers)),
];

/// A log of one ply.
const PLY_LIMIT: [(Asked, Told); 8] = [
    (Open("b1", 518), Opened),
    (Submit("b1", "e2e4"), Played(0)),
    (Submit("b1", "e7e5"), Refused(Refusal::LogFull)),
    (Submit("b1", "e2e5"), Refused(Refusal::LogFull)),
    // A full log is not an end.
    (Follow(1, "b1"), Following(1, ONE_PLY)),
    (Take(1), Nothing),
    (End("b1", Ending::Agreed), Ended(Outcome::Agreed)),
    (Submit("b1", "e7e5"), Refused(Refusal::GameOver)),
];

const BLACK_CLAIMS: Ending = Ending::ClaimFifty(Colour::Black);

const WHITE_CLAIMS: Ending = Ending::ClaimFifty(Colour::White);

/// A claim before the hundredth ply of its kind, by the wrong side, and by the right one.
const FIFTY_MOVES: [(Asked, Told); 9] = [
    (Open("b1", 518), Opened),
    (SubmitLine("b1", NINETY_EIGHT), Played(0)),
    (Submit("b1", "g1f3"), Played(98)),
    (End("b1", BLACK_CLAIMS), Refused(Refusal::ClaimRefused)),
    (Submit("b1", "g8f6"), Played(99)),
    (
        Follow(1, "b1"),
        Following(
            100,
            "1rbqkb1r/pppppppp/5n2/2n5/2N5/5N2/PPPPPPPP/1RBQKB1R w Hh - 100 51",
        ),
    ),
    (End("b1", BLACK_CLAIMS), Refused(Refusal::ClaimRefused)),
    (End("b1", WHITE_CLAIMS), Ended(Outcome::Fifty)),
    (Take(1), Over(Outcome::Fifty)),
];

/// The fifth appearance of the first position ends the game.
const FIVEFOLD: [(Asked, Told); 10] = [
    (Open("b1", 518), Opened),
    (Follow(1, "b1"), Following(0, START_518)),
    (SubmitLine("b1", SHUFFLE), Played(0)),
    (SubmitLine("b1", "g1f3 g8f6 f3g1"), Played(12)),
    (Submit("b1", "f6g8"), PlayedLast(15, Outcome::Fivefold)),
    (
        Follow(2, "b1"),
        Following(
            16,
            "rnbqkbnr/pppppppp/8/8/8/8/PPPPPPPP/RNBQKBNR w HAha - 16 9",
        ),
    ),
    (Submit("b1", "e2e4"), Refused(Refusal::GameOver)),
    (Take(2), Over(Outcome::Fivefold)),
    (FollowFrom(3, "b1", 0), Following(0, START_518)),
    (Take(3), Took(0, "g1f3")),
];

/// The hundred and fiftieth ply of its kind ends the game.
const SEVENTY_FIVE: [(Asked, Told); 13] = [
    (Open("b1", 518), Opened),
    (SubmitLine("b1", NINETY_EIGHT), Played(0)),
    (SubmitLine("b1", SHUFFLE), Played(98)),
    (SubmitLine("b1", "c4e3 c5e6"), Played(110)),
    (SubmitLine("b1", SHUFFLE), Played(112)),
    (SubmitLine("b1", "b1a1 b8a8"), Played(124)),
    (SubmitLine("b1", SHUFFLE), Played(126)),
    (SubmitLine("b1", "e3c4 e6c5"), Played(138)),
    (
        SubmitLine("b1", "g1f3 g8f6 f3g1 f6g8 g1f3 g8f6 f3g1 f6g8 g1f3"),
        Played(140),
    ),
    (Submit("b1", "g8f6"), PlayedLast(149, Outcome::SeventyFive)),
    (
        Follow(1, "b1"),
        Following(
            150,
            "r1bqkb1r/pppppppp/5n2/2n5/2N5/5N2/PPPPPPPP/R1BQKB1R w Hh - 150 76",
        ),
    ),
    (Take(1), Over(Outcome::SeventyFive)),
    (Submit("b1", "f3g1"), Refused(Refusal::GameOver)),
];

/// A case: its name; boards, followers a board, capacity and plies; and its rows.
type Case = (&'static str, (u16, u16, u16, u16), &'static [(Asked, Told)]);

/// Cases of boards, followers and places that are there or not.
static BOARDS: [Case; 5] = [
    ("two boards", (16, 64, 64, 1024), &TWO_BOARDS),
    ("after an end", (16, 64, 64, 1024), &AFTER_AN_END),
    ("at the limits", (1, 1, 64, 1024), &AT_THE_LIMITS),
    ("too far back", (16, 1, 2, 1024), &TOO_FAR_BACK_BEFORE_FULL),
    ("a log of one ply", (16, 64, 64, 1), &PLY_LIMIT),
];

/// Cases of queues that are full, or nearly so, of a whole game, and of followers that come again to an earlier place.
static QUEUES: [Case; 6] = [
    ("a refused submit", (16, 64, 2, 1024), &REFUSED_SUBMIT),
    (
        "a mate in a queue of four",
        (16, 64, 4, 1024),
        &MATE_IN_A_QUEUE_OF_FOUR,
    ),
    (
        "a mate in a queue of three",
        (16, 64, 3, 1024),
        &MATE_IN_A_QUEUE_OF_THREE,
    ),
    ("earlier places", (16, 64, 2, 1024), &FOLLOW_FROM),
    ("a full queue", (16, 64, 2, 1024), &FULL_QUEUE),
    ("a mate", (16, 64, 64, 1024), &MATE),
];

/// Cases of draws by appearances of a position, and by the number of moves.
static DRAWS: [Case; 4] = [
    ("a third appearance", (16, 64, 64, 1024), &THIRD_APPEARANCE),
    ("fivefold", (16, 64, 64, 1024), &FIVEFOLD),
    ("fifty moves", (16, 64, 64, 1024), &FIFTY_MOVES),
    ("seventy-five moves", (16, 64, 64, 1024), &SEVENTY_FIVE),
];

// A function for each of these: the proof of one that gave them all would take twice as long.
fn boards() -> &'static [Case] {
    &BOARDS
}

fn queues() -> &'static [Case] {
    &QUEUES
}

fn draws() -> &'static [Case] {
    &DRAWS
}

/// Asserts that cases are answered as their rows say.
fn assert_cases(rt: &impl Abort, alloc: Global, cases: &[Case]) {
    for (name, limits, rows) in cases {
        assert_case(rt, alloc, *name, *limits, *rows);
    }
}

#[test]
fn the_worked_cases_are_answered_as_their_tables_say(rt: HostRuntime) {
    assert_cases(&rt, rt.alloc(), boards());
    assert_cases(&rt, rt.alloc(), queues());
    assert_cases(&rt, rt.alloc(), draws());
}
