//! A board that a relay over live boards hands out.

use crate::handing::play_and_hand_out;
use crate::tests::claims::claim;
use crate::tests::deeds::{followed, is_full, leaves};
use crate::tests::relays::cases::full_queue;
use crate::tests::relays::table::{Asked, Told, case_of, limits_of};
use crate::tests::values::{account, board_of};
use relay_live::Board;
use std::alloc::Global;
use std::process::Abort;

/// The board of that name, from a relay that has answered these rows: one follower a board, two moves a queue.
fn board_after(
    rt: &impl Abort,
    alloc: Global,
    rows: &[(Asked, Told)],
    name: &str,
) -> Option<Board> {
    let case = case_of(rt, alloc, rows).expect(rt, "memory");
    let limits = limits_of(rt, (2, 1, 2, 64));
    let handed = play_and_hand_out(alloc, limits, case.steps.as_slice(), &board_of(rt, name));
    let (replies, board) = handed.expect(rt, "memory");
    claim(
        rt,
        replies.as_slice() == case.replies.as_slice(),
        "the replies",
    );
    drop((replies, case));
    board
}

/// Asserts that a board has three moves and has not ended, and that one may follow it.
fn assert_goes_on(rt: &impl Abort, mut board: Board) {
    claim(rt, board.len() == 3, "three moves");
    claim(rt, board.outcome().is_none(), "the game goes on");
    let follower = followed(rt, &mut board, None);
    let told = leaves(follower) == account(3, 0, 3, false);
    claim(rt, told, "its slot was given back");
    drop(board);
}

#[test]
fn a_board_is_handed_out_with_its_game(rt: HostRuntime) {
    let board = board_after(&rt, rt.alloc(), full_queue(), "b1");
    assert_goes_on(&rt, board.expect(&rt, "a board"));
    let other = board_after(&rt, rt.alloc(), full_queue(), "b9");
    claim(&rt, other.is_none(), "no board b9");
    drop(other);
}

#[test]
fn who_followed_a_board_keeps_its_place_there(rt: HostRuntime) {
    // All rows but the last, in which the follower leaves.
    let board = board_after(&rt, rt.alloc(), &full_queue()[..9], "b1");
    let mut board = board.expect(&rt, "a board");
    claim(&rt, is_full(&mut board), "its slot is taken");
    drop(board);
}
