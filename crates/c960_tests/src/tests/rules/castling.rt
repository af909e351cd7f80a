//! Castling (FIDE Laws, Article 3.8.2; Guidelines II.3).

use crate::tests::claims::claim;
use crate::tests::rules::lists::assert_list;
use crate::tests::rules::reading::{
    Played, after, assert_played, leads_from, move_of, position_of, standard, start,
};
use c960_rules::{is_legal, legal_moves};
use std::alloc::AllocError;

#[test]
fn king_and_rook_of_start_387_change_places(rt: HostRuntime) -> Result<(), AllocError> {
    let before = start(387).expect(&rt, "a start");
    let count = legal_moves(rt.alloc(), &before)?.len();
    claim(&rt, count == 21, "21 moves");
    let castled = "bqrnnkrb/pppppppp/8/8/8/8/PPPPPPPP/BQRNNRKB b gc - 1 1";
    claim(&rt, leads_from(&before, "f1g1", castled), "f1g1");
    Ok(())
}

#[test]
fn castling_is_written_with_the_rooks_square(rt: HostRuntime) {
    let before = after(&standard(&rt), "g1f3 g8f6 g2g3 g7g6 f1g2 f8g7").expect(&rt, "legal moves");
    let is_move = is_legal(&before, move_of(&rt, "e1g1"));
    claim(&rt, !is_move, "e1g1 is not legal");
    let castled = "rnbqk2r/ppppppbp/5np1/8/8/5NP1/PPPPPPBP/RNBQ1RK1 b ha - 3 4";
    claim(&rt, leads_from(&before, "e1h1", castled), "e1h1");
}

#[test]
fn a_king_that_would_stand_attacked_without_its_rook_does_not_castle(rt: HostRuntime) {
    let before = "4k3/8/8/8/8/8/8/qRK5 w B - 0 1";
    let is_move = is_legal(&position_of(&rt, before), move_of(&rt, "c1b1"));
    claim(&rt, !is_move, "c1b1 is not legal");
    assert_list(&rt, rt.alloc(), before, "b1a1 c1d1 c1c2 c1d2");
}

#[test]
fn a_king_does_not_castle_over_an_attacked_square(rt: HostRuntime) {
    assert_list(
        &rt,
        rt.alloc(),
        "4kr2/8/8/8/8/8/8/4K2R w H - 0 1",
        "e1d1 e1d2 e1e2 h1f1 h1g1 h1h2 h1h3 h1h4 h1h5 h1h6 h1h7 h1h8",
    );
}

#[test]
fn castling_may_be_the_only_legal_move(rt: HostRuntime) {
    assert_list(
        &rt,
        rt.alloc(),
        "4r1k1/8/8/8/8/6p1/6P1/5KRB w G - 0 1",
        "f1g1",
    );
}

/// Castlings of which the king or the rook is on its goal.
static ON_ITS_GOAL: [Played; 3] = [
    (
        "4k3/8/8/8/8/8/8/1RK5 w B - 0 1",
        "c1b1",
        "4k3/8/8/8/8/8/8/2KR4 b - - 1 1",
    ),
    (
        "1rk5/8/8/8/8/8/8/4K3 b b - 7 9",
        "c8b8",
        "2kr4/8/8/8/8/8/8/4K3 w - - 8 10",
    ),
    (
        "4k3/8/8/8/8/8/8/6KR w H - 0 1",
        "g1h1",
        "4k3/8/8/8/8/8/8/5RK1 b - - 1 1",
    ),
];

/// These castlings.
fn on_its_goal() -> &'static [Played] {
    &ON_ITS_GOAL
}

#[test]
fn a_king_or_a_rook_on_its_goal_stays_there(rt: HostRuntime) {
    assert_played(&rt, on_its_goal());
}

/// Castlings across the board.
static ACROSS: [Played; 4] = [
    (
        "4k3/8/8/8/8/8/8/5RK1 w F - 0 1",
        "g1f1",
        "4k3/8/8/8/8/8/8/2KR4 b - - 1 1",
    ),
    (
        "4k3/8/8/8/8/8/8/RK6 w A - 0 1",
        "b1a1",
        "4k3/8/8/8/8/8/8/2KR4 b - - 1 1",
    ),
    (
        "4k3/8/8/8/8/8/8/1RK4R w HB - 0 1",
        "c1h1",
        "4k3/8/8/8/8/8/8/1R3RK1 b - - 1 1",
    ),
    (
        "r3k2r/8/8/8/8/8/8/R3K2R b HAha - 3 7",
        "e8a8",
        "2kr3r/8/8/8/8/8/8/R3K2R w HA - 4 8",
    ),
];

/// These castlings.
fn across() -> &'static [Played] {
    &ACROSS
}

#[test]
fn king_and_rook_cross_the_board_to_their_goals(rt: HostRuntime) {
    assert_played(&rt, across());
}

/// A king's move, and a rook's.
static RIGHTS_ENDED: [Played; 2] = [
    (
        "r3k2r/8/8/8/8/8/8/R3K2R w HAha - 3 7",
        "e1f1",
        "r3k2r/8/8/8/8/8/8/R4K1R b ha - 4 7",
    ),
    (
        "r3k2r/8/8/8/8/8/8/R3K2R w HAha - 3 7",
        "h1h7",
        "r3k2r/7R/8/8/8/8/8/R3K3 b Aha - 4 7",
    ),
];

/// These moves.
fn rights_ended() -> &'static [Played] {
    &RIGHTS_ENDED
}

#[test]
fn a_kings_move_ends_both_rights_and_a_rooks_move_its_own(rt: HostRuntime) {
    assert_played(&rt, rights_ended());
}

#[test]
fn a_rook_that_takes_a_rook_ends_a_right_of_each_side(rt: HostRuntime) {
    assert_played(
        &rt,
        &[(
            "r3k2r/8/8/8/8/8/8/R3K2R w HAha - 0 1",
            "a1a8",
            "R3k2r/8/8/8/8/8/8/4K2R b Hh - 0 1",
        )],
    );
}
