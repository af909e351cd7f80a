//! Draws that come without a claim (FIDE Laws, Article 9.6), and what comes before them.
//!
//! The long lines were drawn at random by a small program outside the repository, which has a plain board of its own: moves of
//! knights and rooks without a capture, so that no position occurs five times. Its counts of appearances and its texts
//! of the last positions are those below.

use crate::tests::game::ends::LOYDS_STALEMATE;
use crate::tests::game::playing::standard;
use crate::tests::game::rows::Row::{
    Appearances, HalfMoves, Last, Len, NoEnd, NoMove, Play, Shuffle, Text,
};
use crate::tests::game::rows::{Row, assert_game, assert_rows, play_lines};
use c960_board::Colour;
use c960_game::{Ending, Outcome, Refusal};
use std::alloc::{AllocError, Global};
use std::process::Abort;

/// Four moves after which the position is as before.
const KNIGHTS_OUT_AND_HOME: &str = "g1f3 g8f6 f3g1 f6g8";

/// A position that appears five times.
static FIFTH_APPEARANCE: [Row; 11] = [
    Play(KNIGHTS_OUT_AND_HOME),
    Play(KNIGHTS_OUT_AND_HOME),
    Play(KNIGHTS_OUT_AND_HOME),
    Appearances(4),
    Play("g1f3 g8f6 f3g1"),
    Len(15),
    Last("f6g8", Outcome::Fivefold),
    Appearances(5),
    Text("rnbqkbnr/pppppppp/8/8/8/8/PPPPPPPP/RNBQKBNR w HAha - 16 9"),
    NoMove("e2e4", Refusal::GameOver),
    NoEnd(Ending::ClaimThreefold(Colour::White), Refusal::GameOver),
];

/// The rows of this game.
fn fifth_appearance() -> &'static [Row] {
    &FIFTH_APPEARANCE
}

#[test]
fn the_fifth_appearance_ends_the_game(rt: HostRuntime) -> Result<(), AllocError> {
    assert_game(&rt, rt.alloc(), 1024, fifth_appearance())
}

/// A hundred and fifty plies without a capture or a move of a pawn.
static SEVENTY_FIVE_MOVES: [Row; 18] = [
    Shuffle("b1c3 b8c6"),
    Shuffle("a1b1 a8b8"),
    Shuffle("b1a1 b8a8"),
    Shuffle("c3b1 c6b8"),
    Shuffle("b1a3 b8a6"),
    Shuffle("a1b1 a8b8"),
    Shuffle("a3c4 a6c5"),
    Shuffle("c4e3 c5e6"),
    Shuffle("b1a1 b8a8"),
    Shuffle("e3c4 e6c5"),
    Play(KNIGHTS_OUT_AND_HOME),
    Play(KNIGHTS_OUT_AND_HOME),
    Play("g1f3"),
    Len(149),
    Last("g8f6", Outcome::SeventyFive),
    Text("r1bqkb1r/pppppppp/5n2/2n5/2N5/5N2/PPPPPPPP/R1BQKB1R w Hh - 150 76"),
    Appearances(3),
    NoMove("f3g1", Refusal::GameOver),
];

/// The rows of this game.
fn seventy_five_moves() -> &'static [Row] {
    &SEVENTY_FIVE_MOVES
}

#[test]
fn seventy_five_moves_of_each_side_end_the_game(rt: HostRuntime) -> Result<(), AllocError> {
    assert_game(&rt, rt.alloc(), 1024, seventy_five_moves())
}

/// Asserts that each row holds after these lines of moves.
fn assert_after(
    rt: &impl Abort,
    alloc: Global,
    lines: &[&str],
    rows: &[Row],
) -> Result<(), AllocError> {
    let mut game = standard(rt, alloc, 1024)?;
    play_lines(rt, &mut game, lines);
    assert_rows(rt, &mut game, rows);
    Ok(())
}

/// After the last of these moves the half-move counter is 149, and Black mates by d8h4.
static BEFORE_MATE: [&str; 8] = [
    "f2f3 b8c6 g2g4 e7e5 b1a3 c6a5 a3b1 a5c6 b1c3 c6b8 c3a4 b8c6 a4c3 c6b8 c3a4 b8c6 a1b1 c6a5 a4c3 a5c6",
    "c3a4 c6a5 a4c3 a5c6 c3a4 a8b8 a4c3 c6a5 b1a1 b8a8 c3b1 a8b8 b1c3 a5c6 c3b1 b8a8 b1a3 c6b8 a3b1 b8c6",
    "b1a3 c6b8 a1b1 b8c6 a3c4 a8b8 b1a1 c6a5 c4a3 a5c6 a1b1 b8a8 b1a1 c6a5 a3b1 a5c6 b1c3 c6a5 c3b1 a5c6",
    "b1c3 c6a5 c3a4 a8b8 a4c3 b8a8 a1b1 a5c6 b1a1 a8b8 c3b1 c6a5 b1c3 a5c6 a1b1 b8a8 b1a1 c6b8 a1b1 b8a6",
    "b1a1 a8b8 c3a4 b8a8 a4c3 a6b8 c3a4 b8a6 a4c3 a8b8 c3b1 a6c5 b1a3 b8a8 a1b1 a8b8 a3c4 b8a8 b1a1 a8b8",
    "a1b1 c5a6 b1a1 a6c5 a1b1 c5a6 c4a3 b8a8 b1a1 a6b8 a3b1 b8a6 b1a3 a8b8 a1b1 b8a8 a3c4 a8b8 c4a3 b8a8",
    "a3c4 a6b8 c4a3 b8c6 a3c4 c6a5 b1a1 a5c6 a1b1 a8b8 c4a3 b8a8 a3c4 a8b8 c4a3 c6a5 b1a1 b8a8 a1b1 a8b8",
    "a3c4 b8a8 c4a3 a8b8 a3c4 b8a8 b1a1 a8b8 a1b1 b8a8 c4a3 a8b8 a3c4",
];

/// The moves before the mate.
pub fn before_mate() -> &'static [&'static str] {
    &BEFORE_MATE
}

/// The mate.
static MATE: [Row; 3] = [
    Last("d8h4", Outcome::Checkmate(Colour::Black)),
    Text("1rb1kbnr/pppp1ppp/8/n3p3/2N3Pq/5P2/PPPPP2P/1RBQKBNR w Hh - 150 78"),
    NoMove("a2a3", Refusal::GameOver),
];

/// The rows of the mate.
fn mate() -> &'static [Row] {
    &MATE
}

#[test]
fn checkmate_comes_before_the_seventy_five_moves(rt: HostRuntime) -> Result<(), AllocError> {
    assert_after(&rt, rt.alloc(), before_mate(), mate())
}

/// Loyd's line up to its last move but one, and on; after these moves the half-move counter is 149, and c8e6 stalemates.
static BEFORE_STALEMATE: [&str; 9] = [
    LOYDS_STALEMATE,
    "b1a3 g6f7 g1e2 f7g6 e2c3 g6f7 c3d1 f7g6 d1c3 g6f7 c3e4 f7g6 e4c3 g6f7 c3b1 f7g6 a3c4 g6f7 c4a3 f7g6",
    "b1c3 g6f7 c3d1 f7g6 a1b1 g6f7 b1a1 f7g6 a1b1 g6f7 d1c3 f7g6 a3c4 g6f7 b1a1 f7g6 c3b1 g6f7 b1a3 f7g6",
    "a3b1 g6f7 c4a3 f7g6 a3c4 g6f7 c4a3 f7g6 a3c4 g6f7 c4a3 f7g6 b1c3 g6f7 c3e2 f7g6 a3b1 g6f7 b1a3 f7g6",
    "e2c3 g6f7 a3b1 f7g6 c3e4 g6f7 b1a3 f7g6 a3b1 g6f7 b1a3 f7g6 a3c4 g6f7 e4c3 f7g6 c3a4 g6f7 a4c3 f7g6",
    "c3e2 g6f7 e2g3 f7g6 c4a3 g6f7 a1b1 f7g6 g3e2 g6f7 e2c3 f7g6 c3d1 g6f7 b1a1 f7g6 a1b1 g6f7 d1c3 f7g6",
    "c3e4 g6f7 b1a1 f7g6 e4c3 g6f7 a3c4 f7g6 c3e4 g6f7 c4a3 f7g6 a3c4 g6f7 a1b1 f7g6 e4c3 g6f7 c3a4 f7g6",
    "c4a3 g6f7 a3c4 f7g6 c4a3 g6f7 a3c4 f7g6 b1a1 g6f7 a1b1 f7g6 c4a3 g6f7 a4c3 f7g6 c3e4 g6f7 e4g3 f7g6",
    "g3e4 g6f7 a3c4 f7g6 e4g3 g6f7 b1a1 f7g6",
];

/// The moves before the stalemate.
fn before_stalemate() -> &'static [&'static str] {
    &BEFORE_STALEMATE
}

/// The stalemate.
static STALEMATE: [Row; 3] = [
    Last("c8e6", Outcome::Stalemate),
    Text("5bnr/4p1pq/4Qpkr/7p/2N4P/4P1N1/PPPP1PP1/R1B1KB1R b H - 150 84"),
    NoMove("h7g8", Refusal::GameOver),
];

/// The rows of the stalemate.
fn stalemate() -> &'static [Row] {
    &STALEMATE
}

#[test]
fn stalemate_comes_before_the_seventy_five_moves(rt: HostRuntime) -> Result<(), AllocError> {
    assert_after(&rt, rt.alloc(), before_stalemate(), stalemate())
}

/// After the last of these moves the half-move counter is 134, and the position appears for the first time.
static BEFORE_FIVEFOLD: [&str; 7] = [
    "e2e4 b8a6 b1a3 a8b8 a3c4 b8a8 c4a3 a6c5 a1b1 c5a6 a3c4 a6b8 c4a3 b8a6 a3c4 a6c5 b1a1 c5a6 a1b1 a6c5",
    "b1a1 a8b8 a1b1 b8a8 c4a3 a8b8 a3c4 b8a8 c4a3 a8b8 b1a1 c5a6 a1b1 a6c5 a3c4 c5a6 c4a3 a6c5 b1a1 b8a8",
    "a3c4 c5a6 a1b1 a8b8 c4a3 b8a8 b1a1 a8b8 a1b1 b8a8 b1a1 a8b8 a3b1 b8a8 b1a3 a8b8 a3b1 a6c5 b1c3 b8a8",
    "c3a4 c5a6 a4c3 a8b8 c3b1 b8a8 b1a3 a6b8 a1b1 b8c6 b1a1 c6b8 a3c4 b8c6 c4a3 a8b8 a3b1 c6a5 b1a3 b8a8",
    "a1b1 a8b8 a3c4 a5c6 c4a3 c6a5 a3c4 a5c6 c4a3 b8a8 a3c4 a8b8 c4a3 c6a5 a3c4 b8a8 b1a1 a5c6 a1b1 c6b8",
    "b1a1 b8c6 c4a3 a8b8 a3b1 b8a8 b1a3 c6a5 a3b1 a8b8 b1a3 b8a8 a1b1 a8b8 b1a1 b8a8 a1b1 a5c6 a3c4 c6b8",
    "b1a1 b8c6 a1b1 a8b8 b1a1 c6a5 a1b1 b8a8 b1a1 a8b8 c4a3 a5c6 a3b1 c6a5 b1c3",
];

/// The moves before the position that appears five times.
fn before_fivefold() -> &'static [&'static str] {
    &BEFORE_FIVEFOLD
}

/// The five appearances.
static FIVEFOLD: [Row; 9] = [
    Appearances(1),
    Play("g8f6 g1f3 f6g8 f3g1"),
    Play("g8f6 g1f3 f6g8 f3g1"),
    Play("g8f6 g1f3 f6g8 f3g1"),
    Play("g8f6 g1f3 f6g8"),
    HalfMoves(149),
    Last("f3g1", Outcome::Fivefold),
    Text("1rbqkbnr/pppppppp/8/n7/4P3/2N5/PPPP1PPP/R1BQKBNR b Hh - 150 76"),
    Appearances(5),
];

/// The rows of these appearances.
fn fivefold() -> &'static [Row] {
    &FIVEFOLD
}

#[test]
fn the_fifth_appearance_comes_before_the_seventy_five_moves(
    rt: HostRuntime,
) -> Result<(), AllocError> {
    assert_after(&rt, rt.alloc(), before_fivefold(), fivefold())
}
