//! Captures en passant (FIDE Laws, Article 3.7.3.1).

use crate::tests::claims::{claim, claim_of};
use crate::tests::rules::lists::assert_list;
use crate::tests::rules::reading::{Played, assert_played, move_of, position_of};
use c960_rules::{State, ep_legal, state};

#[test]
fn a_capture_that_bares_the_kings_rank_is_not_legal(rt: HostRuntime) {
    let position = "8/8/8/K2pP2r/8/8/8/4k3 w - d6 0 1";
    let target = ep_legal(&position_of(&rt, position));
    claim(&rt, target == None, "no target");
    assert_list(&rt, rt.alloc(), position, "a5a4 a5b4 a5b5 a5a6 a5b6 e5e6");
}

#[test]
fn a_capture_may_be_the_only_legal_move(rt: HostRuntime) {
    let text = "4k3/8/4p3/3pP3/8/1q6/8/K7 w - d6 0 1";
    let position = position_of(&rt, text);
    let is_d6 = ep_legal(&position) == Some(move_of(&rt, "e5d6").to);
    claim(&rt, is_d6, "the target is d6");
    claim(&rt, state(&position) == State::Going, "the game goes on");
    assert_list(&rt, rt.alloc(), text, "e5d6");
}

#[test]
fn the_same_position_without_its_target_is_stalemate(rt: HostRuntime) {
    let text = "4k3/8/4p3/3pP3/8/1q6/8/K7 w - - 0 1";
    let position = position_of(&rt, text);
    claim(&rt, ep_legal(&position) == None, "no target");
    claim(&rt, state(&position) == State::Stalemate, "stalemate");
    assert_list(&rt, rt.alloc(), text, "");
}

/// Positions with a target that no legal capture reaches.
static NOT_REACHED: [&str; 3] = [
    "rnbqkbnr/pppppppp/8/8/4P3/8/PPPP1PPP/RNBQKBNR b HAha e3 0 1",
    "4k3/8/8/3pP3/2b5/8/8/5K2 w - d6 0 1",
    "4k3/8/8/P6p/8/8/8/4K3 w - h6 0 1",
];

/// These positions.
fn not_reached() -> &'static [&'static str] {
    &NOT_REACHED
}

#[test]
fn a_target_that_no_legal_capture_reaches_is_none(rt: HostRuntime) {
    for text in not_reached() {
        let target = ep_legal(&position_of(&rt, *text));
        claim_of(&rt, target == None, "no target", *text);
    }
}

/// A capture by White, and one by Black.
static CAPTURES: [Played; 2] = [
    (
        "4k3/8/4p3/3pP3/8/1q6/8/K7 w - d6 0 1",
        "e5d6",
        "4k3/8/3Pp3/8/8/1q6/8/K7 b - - 0 1",
    ),
    (
        "4k3/8/8/8/3pP3/8/8/4K3 b - e3 0 1",
        "d4e3",
        "4k3/8/8/8/8/4p3/8/4K3 w - - 0 2",
    ),
];

/// These captures.
fn captures() -> &'static [Played] {
    &CAPTURES
}

#[test]
fn the_captured_pawn_leaves_the_board(rt: HostRuntime) {
    assert_played(&rt, captures());
}
