//! Checkmate and stalemate (FIDE Laws, Articles 5.1.1 and 5.2.1).

use crate::tests::game::rows::Row::{Last, Log, NoEnd, NoMove, Play, Text};
use crate::tests::game::rows::{Row, assert_game};
use c960_board::Colour;
use c960_game::{Ending, Outcome, Refusal};
use std::alloc::AllocError;

/// The shortest game that ends in checkmate.
static FOOLS_MATE: [Row; 6] = [
    Play("f2f3 e7e5 g2g4"),
    Last("d8h4", Outcome::Checkmate(Colour::Black)),
    Text("rnb1kbnr/pppp1ppp/8/4p3/6Pq/5P2/PPPPP2P/RNBQKBNR w HAha - 1 3"),
    NoMove("a2a3", Refusal::GameOver),
    NoEnd(Ending::Agreed, Refusal::GameOver),
    Log("f2f3 e7e5 g2g4 d8h4"),
];

/// The rows of this game.
fn rows_of_fools_mate() -> &'static [Row] {
    &FOOLS_MATE
}

#[test]
fn fools_mate(rt: HostRuntime) -> Result<(), AllocError> {
    assert_game(&rt, rt.alloc(), 1024, rows_of_fools_mate())
}

/// The shortest known game from the standard array that ends in stalemate, by Sam Loyd, without its last move.
pub const LOYDS_STALEMATE: &str =
    "e2e3 a7a5 d1h5 a8a6 h5a5 h7h5 h2h4 a6h6 a5c7 f7f6 c7d7 e8f7 d7b7 d8d3 b7b8 d3h7 b8c8 f7g6";

/// Loyd's game.
static STALEMATE: [Row; 4] = [
    Play(LOYDS_STALEMATE),
    Last("c8e6", Outcome::Stalemate),
    Text("5bnr/4p1pq/4Qpkr/7p/7P/4P3/PPPP1PP1/RNB1KBNR b HA - 2 10"),
    NoMove("h7g8", Refusal::GameOver),
];

/// The rows of this game.
fn rows_of_loyds_stalemate() -> &'static [Row] {
    &STALEMATE
}

#[test]
fn loyds_stalemate(rt: HostRuntime) -> Result<(), AllocError> {
    assert_game(&rt, rt.alloc(), 1024, rows_of_loyds_stalemate())
}
