//! Full logs, and how castling is written.

use crate::tests::game::rows::Row::{Log, NoMove, Play, Text};
use crate::tests::game::rows::{Row, assert_game};
use c960_game::Refusal;
use std::alloc::AllocError;

/// A log of one ply.
static FULL: [Row; 4] = [
    Play("e2e4"),
    NoMove("e7e5", Refusal::LogFull),
    NoMove("e2e5", Refusal::LogFull),
    Log("e2e4"),
];

/// The rows of this game.
fn full() -> &'static [Row] {
    &FULL
}

#[test]
fn a_full_log_takes_no_move_legal_or_not(rt: HostRuntime) -> Result<(), AllocError> {
    assert_game(&rt, rt.alloc(), 1, full())
}

/// Castling in two notations.
static CASTLING: [Row; 5] = [
    Play("g1f3 g8f6 g2g3 g7g6 f1g2 f8g7"),
    NoMove("e1g1", Refusal::Illegal),
    Play("e1h1"),
    Text("rnbqk2r/ppppppbp/5np1/8/8/5NP1/PPPPPPBP/RNBQ1RK1 b ha - 3 4"),
    Log("g1f3 g8f6 g2g3 g7g6 f1g2 f8g7 e1h1"),
];

/// The rows of this game.
fn castling() -> &'static [Row] {
    &CASTLING
}

#[test]
fn castling_is_written_from_the_king_to_its_rook(rt: HostRuntime) -> Result<(), AllocError> {
    assert_game(&rt, rt.alloc(), 1024, castling())
}
