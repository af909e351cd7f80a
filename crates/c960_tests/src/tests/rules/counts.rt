//! Counts of positions after one ply, two plies and so on, as Stockfish 15.1 gives them with its option UCI_Chess960.

use crate::perft;
use crate::tests::claims::{claim, claim_of};
use crate::tests::rules::reading::position_of;
use c960_rules::Lawful;
use std::alloc::{AllocError, Global};
use std::process::Abort;

/// The perft of the position at this many plies, or none if there are more than four or a counter has no room for them.
pub fn count(alloc: Global, lawful: &Lawful, plies: u8) -> Result<Option<u64>, AllocError> {
    let position = lawful.position();
    if plies > 4 || position.half_moves() > 65531 || position.number() > 65531 {
        return Ok(None);
    }
    Ok(Some(perft(alloc, lawful, plies)?))
}

/// Whether these are the counts after one ply, two plies and so on.
fn are_counts(alloc: Global, lawful: &Lawful, counts: &[u64]) -> Result<bool, AllocError> {
    for (expected, plies) in counts.iter().zip(1..) {
        if count(alloc, lawful, plies)? != Some(*expected) {
            return Ok(false);
        }
    }
    Ok(true)
}

/// Asserts the counts after one ply, two plies and so on.
fn assert_counts(rt: &impl Abort, alloc: Global, text: &str, counts: &[u64]) {
    let position = position_of(rt, text);
    let are_so = are_counts(alloc, &position, counts) == Ok(true);
    claim_of(rt, are_so, "the counts", text);
}

#[test]
fn the_standard_array(rt: HostRuntime) {
    assert_counts(
        &rt,
        rt.alloc(),
        "rnbqkbnr/pppppppp/8/8/8/8/PPPPPPPP/RNBQKBNR w HAha - 0 1",
        &[20, 400, 8902, 197281],
    );
}

#[test]
fn a_position_with_every_kind_of_move(rt: HostRuntime) {
    assert_counts(
        &rt,
        rt.alloc(),
        "r3k2r/p1ppqpb1/bn2pnp1/3PN3/1p2P3/2N2Q1p/PPPBBPPP/R3K2R w HAha - 0 1",
        &[48, 2039, 97862],
    );
}

/// Positions with castling, and their counts.
static WITH_CASTLING: [(&str, [u64; 3]); 7] = [
    ("4k3/8/8/8/8/8/8/5KR1 w G - 0 1", [13, 58, 1033]),
    ("4k3/8/8/8/8/8/8/3RK3 w D - 0 1", [15, 52, 866]),
    ("4k3/8/8/8/8/8/8/RN4K1 w A - 0 1", [15, 70, 1380]),
    ("1r2k3/8/8/8/8/8/8/R3K3 w A - 0 1", [16, 226, 3602]),
    ("4k3/8/8/8/8/8/8/5K1R w H - 0 1", [14, 63, 1128]),
    ("4r1k1/8/8/8/8/6p1/6P1/5KRB w G - 0 1", [1, 15, 169]),
    ("r3k2r/8/8/8/8/8/8/R3K2R w HAha - 0 1", [26, 568, 13744]),
];

/// These positions.
fn with_castling() -> &'static [(&'static str, [u64; 3])] {
    &WITH_CASTLING
}

#[test]
fn positions_with_castling(rt: HostRuntime) {
    for (text, counts) in with_castling() {
        assert_counts(&rt, rt.alloc(), *text, counts);
    }
}

/// Positions with a target, and their counts.
static WITH_A_TARGET: [(&str, [u64; 3]); 3] = [
    ("4k3/8/4p3/3pP3/8/1q6/8/K7 w - d6 0 1", [1, 25, 50]),
    ("4k3/8/8/3pP3/2b5/8/8/5K2 w - d6 0 1", [4, 52, 321]),
    ("4k3/8/8/P6p/8/8/8/4K3 w - h6 0 1", [6, 36, 269]),
];

/// These positions.
fn with_a_target() -> &'static [(&'static str, [u64; 3])] {
    &WITH_A_TARGET
}

#[test]
fn positions_with_a_target(rt: HostRuntime) {
    for (text, counts) in with_a_target() {
        assert_counts(&rt, rt.alloc(), *text, counts);
    }
}

#[test]
fn a_position_with_promotions(rt: HostRuntime) {
    assert_counts(
        &rt,
        rt.alloc(),
        "r3k2r/1P4P1/8/8/8/8/8/4K3 w ha - 0 1",
        &[21, 282, 4716],
    );
}

#[test]
fn a_position_with_no_move(rt: HostRuntime) {
    let text = "7k/5Q2/6K1/8/8/8/8/8 b - - 0 1";
    assert_counts(&rt, rt.alloc(), text, &[0, 0, 0, 0]);
    let itself = count(rt.alloc(), &position_of(&rt, text), 0);
    claim(&rt, itself == Ok(Some(1)), "itself");
}

/// Stockfish has room for 256 moves only: this number was counted along the lines of each queen.
#[test]
fn a_position_with_263_moves(rt: HostRuntime) {
    assert_counts(
        &rt,
        rt.alloc(),
        "QQQQQQQQ/Q6Q/Q6Q/Q6Q/Q6Q/KQ5Q/ppQ4Q/kNQQQQQQ w - - 0 1",
        &[263],
    );
}
