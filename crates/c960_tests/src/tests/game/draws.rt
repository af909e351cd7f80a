//! Claims of a draw (FIDE Laws, Articles 9.2 and 9.3).

use crate::tests::game::rows::Row::{Appearances, End, Len, NoEnd, NoMove, Play, Shuffle, Text};
use crate::tests::game::rows::{Row, assert_game};
use c960_board::Colour;
use c960_game::{Ending, Outcome, Refusal};
use std::alloc::AllocError;

/// Four moves after which the position is as before.
const KNIGHTS_OUT_AND_HOME: &str = "g8f6 g1f3 f6g8 f3g1";

/// A claim at the second appearance, by the wrong side at the third, and by the right one.
static THIRD_APPEARANCE: [Row; 12] = [
    Play("e2e4"),
    Text("rnbqkbnr/pppppppp/8/8/4P3/8/PPPP1PPP/RNBQKBNR b HAha e3 0 1"),
    Appearances(1),
    Play(KNIGHTS_OUT_AND_HOME),
    Appearances(2),
    NoEnd(Ending::ClaimThreefold(Colour::Black), Refusal::ClaimRefused),
    Play(KNIGHTS_OUT_AND_HOME),
    Len(9),
    Appearances(3),
    NoEnd(Ending::ClaimThreefold(Colour::White), Refusal::ClaimRefused),
    End(Ending::ClaimThreefold(Colour::Black), Outcome::Threefold),
    NoMove("e7e5", Refusal::GameOver),
];

/// The rows of a third appearance.
fn third_appearance() -> &'static [Row] {
    &THIRD_APPEARANCE
}

#[test]
fn the_third_appearance_may_be_claimed_by_the_side_on_move(
    rt: HostRuntime,
) -> Result<(), AllocError> {
    assert_game(&rt, rt.alloc(), 1024, third_appearance())
}

/// A claim after 99 plies of their kind, by the wrong side after the hundredth, and by the right one.
static FIFTY_MOVES: [Row; 15] = [
    Shuffle("b1c3 b8c6"),
    Shuffle("a1b1 a8b8"),
    Shuffle("b1a1 b8a8"),
    Shuffle("c3b1 c6b8"),
    Shuffle("b1a3 b8a6"),
    Shuffle("a1b1 a8b8"),
    Shuffle("a3c4 a6c5"),
    Play("g1f3"),
    Len(99),
    NoEnd(Ending::ClaimFifty(Colour::Black), Refusal::ClaimRefused),
    Play("g8f6"),
    Text("1rbqkb1r/pppppppp/5n2/2n5/2N5/5N2/PPPPPPPP/1RBQKB1R w Hh - 100 51"),
    NoEnd(Ending::ClaimFifty(Colour::Black), Refusal::ClaimRefused),
    End(Ending::ClaimFifty(Colour::White), Outcome::Fifty),
    NoMove("f3g1", Refusal::GameOver),
];

/// The rows of fifty moves.
fn fifty_moves() -> &'static [Row] {
    &FIFTY_MOVES
}

#[test]
fn fifty_moves_of_each_side_may_be_claimed_by_the_side_on_move(
    rt: HostRuntime,
) -> Result<(), AllocError> {
    assert_game(&rt, rt.alloc(), 1024, fifty_moves())
}
