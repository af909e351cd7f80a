//! Worked cases on one thread, a table each: what is asked, and what has to be answered.

use crate::tests::live_boards::table::Asked::{
    self, Drop, End, Follow, FollowFrom, Leave, Look, Submit, Take,
};
use crate::tests::live_boards::table::Told::{
    self, Cut, Dropped, Ended, Following, Left, NoWord, Nothing, Over, Played, PlayedLast, Refused,
    Took, Word,
};
use crate::tests::live_boards::table::assert_case;
use crate::tests::values::BLACK_MATES;
use c960_board::Colour;
use c960_game::Result::Draw;
use c960_game::{Ending, Outcome, Refusal};
use std::alloc::Global;
use std::process::Abort;

const WHITE_RESIGNED: Outcome = Outcome::Resigned(Colour::White);

/// A mate is taken, and then the game is over.
const MATE: [(Asked, Told); 15] = [
    (Follow(1), Following(0)),
    (Submit("f2f3 e7e5 g2g4"), Played(0)),
    (Submit("d8h4"), PlayedLast(3, BLACK_MATES)),
    (Take(1), Took(0, "f2f3")),
    (Take(1), Took(1, "e7e5")),
    (Take(1), Took(2, "g2g4")),
    (Take(1), Took(3, "d8h4")),
    (Take(1), Over(BLACK_MATES)),
    (Take(1), Over(BLACK_MATES)),
    (Submit("a2a3"), Refused(Refusal::GameOver)),
    (End(Ending::Agreed), Refused(Refusal::GameOver)),
    (Leave(1), Left(0, 4, 4, false)),
    (Follow(2), Following(4)),
    (Take(2), Over(BLACK_MATES)),
    (Leave(2), Left(4, 0, 4, false)),
];

/// The mating move closes a follower that is a capacity behind.
const MATE_CLOSES: [(Asked, Told); 9] = [
    (Follow(1), Following(0)),
    (Submit("f2f3 e7e5 g2g4"), Played(0)),
    (Submit("d8h4"), PlayedLast(3, BLACK_MATES)),
    (Take(1), Took(0, "f2f3")),
    (Take(1), Took(1, "e7e5")),
    (Take(1), Took(2, "g2g4")),
    (Take(1), Cut),
    (Take(1), Cut),
    (Leave(1), Left(0, 3, 3, true)),
];

/// A full follower is closed.
const FULL: [(Asked, Told); 14] = [
    (Follow(1), Following(0)),
    (Follow(2), Following(0)),
    (Submit("e2e4 e7e5"), Played(0)),
    (Take(2), Took(0, "e2e4")),
    (Submit("g1f3"), Played(2)),
    (Take(1), Took(0, "e2e4")),
    (Take(1), Took(1, "e7e5")),
    (Take(1), Cut),
    (Take(1), Cut),
    (Leave(1), Left(0, 2, 2, true)),
    // The other, which had taken one, goes on.
    (Take(2), Took(1, "e7e5")),
    (Take(2), Took(2, "g1f3")),
    (Take(2), Nothing),
    (Leave(2), Left(0, 3, 3, false)),
];

/// A follower that was closed and takes nothing learns of it when it leaves.
const LEAVES_CLOSED: [(Asked, Told); 6] = [
    (Follow(1), Following(0)),
    (Submit("e2e4 e7e5 g1f3"), Played(0)),
    (Leave(1), Left(0, 0, 2, true)),
    (Follow(1), Following(3)),
    (Submit("b8c6"), Played(3)),
    (Leave(1), Left(3, 0, 4, false)),
];

/// A refused submit closes nobody.
const REFUSED_SUBMIT: [(Asked, Told); 8] = [
    (Follow(1), Following(0)),
    (Submit("e2e4 e7e5"), Played(0)),
    (Submit("e2e4"), Refused(Refusal::Illegal)),
    (Take(1), Took(0, "e2e4")),
    (Submit("g1f3"), Played(2)),
    (Take(1), Took(1, "e7e5")),
    (Take(1), Took(2, "g1f3")),
    (Take(1), Nothing),
];

/// An end closes nobody.
const ENDED: [(Asked, Told); 9] = [
    (Follow(1), Following(0)),
    (Submit("e2e4"), Played(0)),
    (
        End(Ending::ClaimThreefold(Colour::Black)),
        Refused(Refusal::ClaimRefused),
    ),
    (End(Ending::Resigns(Colour::White)), Ended(WHITE_RESIGNED)),
    (End(Ending::Agreed), Refused(Refusal::GameOver)),
    (Submit("e7e5"), Refused(Refusal::GameOver)),
    (Take(1), Took(0, "e2e4")),
    (Take(1), Over(WHITE_RESIGNED)),
    (Leave(1), Left(0, 1, 1, false)),
];

/// A full log takes no move, but an end.
const FULL_LOG: [(Asked, Told); 9] = [
    (Follow(1), Following(0)),
    (Submit("e2e4"), Played(0)),
    // The follower has a whole queue before it, and a refused submit closes nobody.
    (Submit("e7e5"), Refused(Refusal::LogFull)),
    (Submit("e2e5"), Refused(Refusal::LogFull)),
    (Take(1), Took(0, "e2e4")),
    (Take(1), Nothing),
    (End(Ending::Abandoned), Ended(Outcome::Abandoned)),
    (Take(1), Over(Outcome::Abandoned)),
    (Submit("e7e5"), Refused(Refusal::GameOver)),
];

/// A game may end by itself without a mate.
const FIVEFOLD: [(Asked, Told); 7] = [
    (
        Submit("g1f3 g8f6 f3g1 f6g8 g1f3 g8f6 f3g1 f6g8 g1f3 g8f6 f3g1 f6g8 g1f3 g8f6 f3g1"),
        Played(0),
    ),
    (Follow(1), Following(15)),
    (Take(1), Nothing),
    (Submit("f6g8"), PlayedLast(15, Outcome::Fivefold)),
    (Submit("e2e4"), Refused(Refusal::GameOver)),
    (Take(1), Took(15, "f6g8")),
    (Take(1), Over(Outcome::Fivefold)),
];

/// A follower may join at an earlier place, at most a capacity back.
const EARLIER: [(Asked, Told); 18] = [
    (Submit("e2e4 e7e5 g1f3"), Played(0)),
    (FollowFrom(1, 0), Refused(Refusal::TooFarBack)),
    (FollowFrom(1, 4), Refused(Refusal::NotYet)),
    (FollowFrom(1, 65535), Refused(Refusal::NotYet)),
    (FollowFrom(1, 1), Following(1)),
    // It has a whole queue before it, and is closed.
    (Submit("b8c6"), Played(3)),
    (Take(1), Took(1, "e7e5")),
    (Take(1), Took(2, "g1f3")),
    (Take(1), Cut),
    (Leave(1), Left(1, 2, 3, true)),
    (FollowFrom(1, 4), Following(4)),
    (Take(1), Nothing),
    (End(Ending::Agreed), Ended(Outcome::Agreed)),
    (FollowFrom(2, 2), Following(2)),
    (Take(2), Took(2, "g1f3")),
    (Take(2), Took(3, "b8c6")),
    (Take(2), Over(Outcome::Agreed)),
    (Take(1), Over(Outcome::Agreed)),
];

/// A place too far back, or not there yet, is refused before a full board is.
const FULL_BOARD: [(Asked, Told); 9] = [
    (Submit("e2e4 e7e5 g1f3"), Played(0)),
    (Follow(1), Following(3)),
    (FollowFrom(2, 0), Refused(Refusal::TooFarBack)),
    (FollowFrom(2, 4), Refused(Refusal::NotYet)),
    (FollowFrom(2, 2), Refused(Refusal::TooManyFollowers)),
    (Follow(2), Refused(Refusal::TooManyFollowers)),
    (Leave(1), Left(3, 0, 3, false)),
    (FollowFrom(2, 2), Following(2)),
    (Take(2), Took(2, "g1f3")),
];

/// A follower that joined a whole capacity back and takes before the next move is not closed.
const TAKES_FIRST: [(Asked, Told); 8] = [
    (Submit("e2e4 e7e5 g1f3"), Played(0)),
    (FollowFrom(1, 1), Following(1)),
    (Take(1), Took(1, "e7e5")),
    (Submit("b8c6"), Played(3)),
    (Take(1), Took(2, "g1f3")),
    (Take(1), Took(3, "b8c6")),
    (Take(1), Nothing),
    (Leave(1), Left(1, 3, 4, false)),
];

/// A follower that is dropped without leaving keeps its slot.
const DROPPED: [(Asked, Told); 14] = [
    (Follow(1), Following(0)),
    (Follow(2), Following(0)),
    (Drop(1), Dropped),
    (Follow(3), Refused(Refusal::TooManyFollowers)),
    // It is closed like any other, and keeps its slot.
    (Submit("e2e4"), Played(0)),
    (Take(2), Took(0, "e2e4")),
    (Submit("e7e5"), Played(1)),
    (Follow(3), Refused(Refusal::TooManyFollowers)),
    (Leave(2), Left(0, 1, 2, false)),
    (Follow(3), Following(2)),
    (Follow(4), Refused(Refusal::TooManyFollowers)),
    (Drop(3), Dropped),
    (Follow(4), Refused(Refusal::TooManyFollowers)),
    (Submit("g1f3"), Played(2)),
];

/// A mixture that was drawn by chance, with the answers of the plain relay of `crates/relay960/replays/plain.py`, in which a follower that
/// is dropped keeps its seat. No command of the program drops one.
const DROPPED_BY_CHANCE: [(Asked, Told); 56] = [
    (Submit("g2g4"), Played(0)),
    (Submit("f6g8"), Refused(Refusal::Illegal)),
    (FollowFrom(2, 1), Following(1)),
    (FollowFrom(1, 0), Following(0)),
    (Submit("g8f6"), Played(1)),
    (Take(1), Took(0, "g2g4")),
    (FollowFrom(3, 1), Following(1)),
    (Take(2), Took(1, "g8f6")),
    (Take(1), Took(1, "g8f6")),
    (Leave(2), Left(1, 1, 2, false)),
    (Leave(3), Left(1, 0, 2, false)),
    (FollowFrom(3, 0), Following(0)),
    (FollowFrom(0, 0), Following(0)),
    (Take(1), Nothing),
    (Submit("f2f3"), Played(2)),
    (Submit("f6g8"), Played(3)),
    (Take(1), Took(2, "f2f3")),
    (Drop(1), Dropped),
    (Submit("f6g8"), Refused(Refusal::Illegal)),
    (Take(0), Took(0, "g2g4")),
    (Follow(2), Refused(Refusal::TooManyFollowers)),
    (Drop(3), Dropped),
    (Take(0), Took(1, "g8f6")),
    (FollowFrom(3, 2), Refused(Refusal::TooManyFollowers)),
    (Take(0), Cut),
    (FollowFrom(2, 1), Refused(Refusal::TooFarBack)),
    (Leave(0), Left(0, 2, 2, true)),
    (Follow(2), Following(4)),
    (Follow(1), Refused(Refusal::TooManyFollowers)),
    (Follow(0), Refused(Refusal::TooManyFollowers)),
    (FollowFrom(3, 0), Refused(Refusal::TooFarBack)),
    (FollowFrom(0, 3), Refused(Refusal::TooManyFollowers)),
    (Take(2), Nothing),
    (Follow(3), Refused(Refusal::TooManyFollowers)),
    (FollowFrom(0, 1), Refused(Refusal::TooFarBack)),
    (Take(2), Nothing),
    (Leave(2), Left(4, 0, 4, false)),
    (Follow(2), Following(4)),
    (FollowFrom(0, 5), Refused(Refusal::NotYet)),
    (Take(2), Nothing),
    (FollowFrom(1, 0), Refused(Refusal::TooFarBack)),
    (FollowFrom(0, 0), Refused(Refusal::TooFarBack)),
    (Take(2), Nothing),
    (FollowFrom(1, 5), Refused(Refusal::NotYet)),
    (FollowFrom(3, 1), Refused(Refusal::TooFarBack)),
    (Take(2), Nothing),
    (FollowFrom(3, 4), Refused(Refusal::TooManyFollowers)),
    (Leave(2), Left(4, 0, 4, false)),
    (FollowFrom(1, 2), Following(2)),
    (Leave(1), Left(2, 0, 4, false)),
    (Follow(0), Following(4)),
    (Take(0), Nothing),
    (FollowFrom(2, 3), Refused(Refusal::TooManyFollowers)),
    (Take(0), Nothing),
    (FollowFrom(2, 5), Refused(Refusal::NotYet)),
    (Drop(0), Dropped),
];

/// A slot that was given back is given out again.
const GIVEN_BACK: [(Asked, Told); 19] = [
    (Follow(1), Following(0)),
    (Follow(2), Following(0)),
    (Follow(3), Following(0)),
    (Leave(2), Left(0, 0, 0, false)),
    (Submit("e2e4"), Played(0)),
    (Follow(2), Following(1)),
    (Follow(4), Refused(Refusal::TooManyFollowers)),
    (Leave(3), Left(0, 0, 1, false)),
    (Leave(1), Left(0, 0, 1, false)),
    (Submit("e7e5"), Played(1)),
    (Follow(4), Following(2)),
    (FollowFrom(5, 1), Following(1)),
    (Follow(1), Refused(Refusal::TooManyFollowers)),
    (Submit("g1f3"), Played(2)),
    // The follower in the slot that was closed before it came is not closed by that.
    (Take(4), Took(2, "g1f3")),
    (Take(5), Took(1, "e7e5")),
    (Take(5), Cut),
    (Take(2), Took(1, "e7e5")),
    (Take(2), Cut),
];

/// The words of the worked examples: header, status and cursor of a board that one spectator may follow, whose queues hold two moves.
const WORDS: [(Asked, Told); 34] = [
    (Look(0), Word(131590)),
    (Look(1), Word(0)),
    (Look(2), Word(0)),
    (Look(18), Word(0)),
    (Look(19), NoWord),
    // A follower joins at 0 and is closed at length 2; it takes one move and leaves.
    (Follow(1), Following(0)),
    (Look(2), Word(4294967296)),
    (Submit("e2e4 e7e5"), Played(0)),
    (Look(1), Word(2)),
    (Look(2), Word(4294967296)),
    (Submit("g1f3"), Played(2)),
    (Look(2), Word(17179869184)),
    (Take(1), Took(0, "e2e4")),
    (Look(2), Word(17179869185)),
    (Leave(1), Left(0, 1, 2, true)),
    (Look(2), Word(0)),
    // A refused follow leaves the cursor as it was. A follower that joins at 1 is closed at length 3.
    (FollowFrom(1, 0), Refused(Refusal::TooFarBack)),
    (Look(2), Word(0)),
    (FollowFrom(1, 4), Refused(Refusal::NotYet)),
    (Look(2), Word(0)),
    (FollowFrom(1, 1), Following(1)),
    (Look(2), Word(4294967297)),
    (FollowFrom(2, 1), Refused(Refusal::TooManyFollowers)),
    (Look(2), Word(4294967297)),
    (Submit("e2e5"), Refused(Refusal::Illegal)),
    (Look(1), Word(3)),
    (Submit("b8c6"), Played(3)),
    (Look(2), Word(21474836481)),
    // e2e4 has the code 1804. The header never changes.
    (Look(3), Word(1804)),
    (Look(1), Word(4)),
    (Look(0), Word(131590)),
    // An agreed draw is the outcome 6.
    (End(Ending::Agreed), Ended(Outcome::Agreed)),
    (Look(1), Word(393220)),
    (Look(2), Word(21474836481)),
];

/// The status after a mate.
const WORD_OF_A_MATE: [(Asked, Told); 3] = [
    (Submit("f2f3 e7e5 g2g4"), Played(0)),
    (Submit("d8h4"), PlayedLast(3, BLACK_MATES)),
    (Look(1), Word(131076)),
];

/// The status after an agreed draw without a move.
const WORD_OF_A_DRAW: [(Asked, Told); 2] = [
    (End(Ending::Agreed), Ended(Outcome::Agreed)),
    (Look(1), Word(393216)),
];

/// The status after a loss on time, which is the outcome 12 for White.
const WORD_OF_A_LOSS_ON_TIME: [(Asked, Told); 2] = [
    (
        End(Ending::LosesOnTime(Colour::White)),
        Ended(Outcome::LostOnTime(Colour::White)),
    ),
    (Look(1), Word(786432)),
];

/// The status after an arbiter's draw, the last of the outcomes, 16.
const WORD_OF_A_DECISION: [(Asked, Told); 2] = [
    (End(Ending::Decided(Draw)), Ended(Outcome::Decided(Draw))),
    (Look(1), Word(1048576)),
];

/// A case: its name, its board's followers, capacity and plies, and its rows.
type Case = (&'static str, (u16, u16, u16), &'static [(Asked, Told)]);

/// Cases of queues that are full, or nearly so.
static QUEUES: [Case; 7] = [
    ("mate", (64, 4, 1024), &MATE),
    ("mate", (64, 64, 1024), &MATE),
    ("mate", (64, 1024, 1024), &MATE),
    ("mate closes", (64, 3, 1024), &MATE_CLOSES),
    ("full", (64, 2, 1024), &FULL),
    ("leaves closed", (64, 2, 1024), &LEAVES_CLOSED),
    ("refused submit", (64, 2, 1024), &REFUSED_SUBMIT),
];

/// Cases of games that end, or whose log is full, and of followers that join at an earlier place, or in vain.
static ENDS_AND_JOINS: [Case; 8] = [
    ("ended", (64, 1, 1024), &ENDED),
    ("full log", (64, 1, 1), &FULL_LOG),
    ("fivefold", (64, 64, 1024), &FIVEFOLD),
    ("earlier", (64, 2, 1024), &EARLIER),
    ("full board", (1, 2, 1024), &FULL_BOARD),
    ("takes first", (64, 2, 1024), &TAKES_FIRST),
    ("dropped", (2, 1, 1024), &DROPPED),
    ("given back", (3, 1, 1024), &GIVEN_BACK),
];

/// Cases of followers that are dropped by chance, and of the words of the table.
static DROPS_AND_WORDS: [Case; 6] = [
    ("dropped by chance", (3, 2, 64), &DROPPED_BY_CHANCE),
    ("words", (1, 2, 16), &WORDS),
    ("mate's word", (1, 2, 16), &WORD_OF_A_MATE),
    ("draw's word", (1, 2, 16), &WORD_OF_A_DRAW),
    ("flag's word", (1, 2, 16), &WORD_OF_A_LOSS_ON_TIME),
    ("decision's word", (1, 2, 16), &WORD_OF_A_DECISION),
];

// A function for each of these: the proof of one that gave them all would take twice as long.
fn queues() -> &'static [Case] {
    &QUEUES
}

fn ends_and_joins() -> &'static [Case] {
    &ENDS_AND_JOINS
}

fn drops_and_words() -> &'static [Case] {
    &DROPS_AND_WORDS
}

/// Asserts that cases are answered as their rows say.
fn assert_cases(rt: &impl Abort, alloc: Global, cases: &[Case]) {
    for (name, limits, rows) in cases {
        assert_case(rt, alloc, *name, *limits, *rows);
    }
}

#[test]
fn the_worked_cases_are_answered_as_their_tables_say(rt: HostRuntime) {
    assert_cases(&rt, rt.alloc(), queues());
    assert_cases(&rt, rt.alloc(), ends_and_joins());
    assert_cases(&rt, rt.alloc(), drops_and_words());
}
