//! Games before the first move.

use crate::tests::claims::claim_at;
use crate::tests::game::playing::{has_log, is_written};
use crate::tests::game::rows::Row::{End, NoEnd, NoMove};
use crate::tests::game::rows::{Row, assert_game};
use c960_board::Colour;
use c960_game::{Ending, Game, Outcome, Refusal};
use std::alloc::{AllocError, Global};

/// Starts by their numbers, and their positions, from Scharnagl's table.
static STARTS: [(u16, &str); 3] = [
    (
        0,
        "bbqnnrkr/pppppppp/8/8/8/8/PPPPPPPP/BBQNNRKR w HFhf - 0 1",
    ),
    (
        518,
        "rnbqkbnr/pppppppp/8/8/8/8/PPPPPPPP/RNBQKBNR w HAha - 0 1",
    ),
    (
        959,
        "rkrnnqbb/pppppppp/8/8/8/8/PPPPPPPP/RKRNNQBB w CAca - 0 1",
    ),
];

/// The starts.
fn starts() -> &'static [(u16, &'static str)] {
    &STARTS
}

/// Whether a game has this start, is written as this text, and has neither a move nor an end.
fn is_new(game: &Game, start: u16, text: &str) -> bool {
    game.start() == start
        && is_written(game, text)
        && has_log(game, "")
        && game.outcome().is_none()
        && game.appearances() == 1
}

/// Whether a start opens a new game that is written as this text, or there is no memory for it.
fn opens(alloc: Global, start: u16, text: &str) -> bool {
    match Game::open(alloc, start, 16384) {
        Ok(game) => is_new(&game, start, text),
        Err(refusal) => refusal == Refusal::OutOfMemory,
    }
}

#[test]
fn each_start_opens_a_game_without_moves(rt: HostRuntime) {
    for (start, text) in starts() {
        let is_open = opens(rt.alloc(), *start, *text);
        claim_at(&rt, is_open, "start", u64::from(*start));
    }
}

/// Whether no game is opened with this start, because it does not exist.
fn is_bad_start(alloc: Global, start: u16) -> bool {
    matches!(Game::open(alloc, start, 1024), Err(Refusal::BadStart))
}

#[test]
fn numbers_from_960_on_are_refused(rt: HostRuntime) {
    for start in [960, 961, 65535] {
        let is_bad = is_bad_start(rt.alloc(), start);
        claim_at(&rt, is_bad, "no start", u64::from(start));
    }
}

/// A draw that is agreed at once.
static AGREED: [Row; 3] = [
    End(Ending::Agreed, Outcome::Agreed),
    NoMove("e2e4", Refusal::GameOver),
    NoEnd(Ending::Abandoned, Refusal::GameOver),
];

/// The rows of this game.
fn agreed() -> &'static [Row] {
    &AGREED
}

#[test]
fn a_draw_may_be_agreed_before_the_first_move(rt: HostRuntime) -> Result<(), AllocError> {
    assert_game(&rt, rt.alloc(), 1024, agreed())
}

/// Black resigns when White is on move.
static RESIGNED: [Row; 2] = [
    End(
        Ending::Resigns(Colour::Black),
        Outcome::Resigned(Colour::Black),
    ),
    NoMove("e2e4", Refusal::GameOver),
];

/// The rows of this game.
fn resigned() -> &'static [Row] {
    &RESIGNED
}

#[test]
fn a_player_may_resign_when_not_on_move(rt: HostRuntime) -> Result<(), AllocError> {
    assert_game(&rt, rt.alloc(), 1024, resigned())
}

/// A game that is given up.
static ABANDONED: [Row; 2] = [
    End(Ending::Abandoned, Outcome::Abandoned),
    NoEnd(Ending::Resigns(Colour::White), Refusal::GameOver),
];

/// The rows of this game.
fn abandoned() -> &'static [Row] {
    &ABANDONED
}

#[test]
fn a_game_may_be_given_up_without_a_result(rt: HostRuntime) -> Result<(), AllocError> {
    assert_game(&rt, rt.alloc(), 1024, abandoned())
}
