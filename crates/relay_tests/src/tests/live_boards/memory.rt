//! Lack of memory. If one allocation is refused (`rt try --test --fail-alloc N`, for each N in turn), the call that needed it says
//! so and changes nothing, and is accepted when made again; no other call allocates.

use crate::tests::again::{follow, open};
use crate::tests::claims::claim;
use crate::tests::deeds::{agrees, gets, is_bad_start, is_full, leaves, plays, takes};
use crate::tests::live_boards::games::limits_of;
use crate::tests::values::account;
use c960_game::Outcome;
use live_board::{Board, Follower};
use relay_core::Taken;
use std::process::Abort;

/// Two follow a board that has two slots, whose queues hold one move. One of them is closed, and leaves. Returns the other.
fn one_of_two(rt: &impl Abort, board: &mut Board) -> Follower {
    let mut one = follow(rt, board, None);
    claim(rt, plays(rt, board, 0, "e2e4"), "e2e4 is played");
    let mut two = follow(rt, board, Some(0));
    claim(rt, is_full(board), "both slots are taken");
    claim(rt, gets(rt, &mut one, 0, "e2e4"), "the first gets e2e4");
    claim(rt, plays(rt, board, 1, "e7e5"), "e7e5 is played");
    claim(rt, gets(rt, &mut one, 1, "e7e5"), "the first gets e7e5");
    claim(rt, gets(rt, &mut two, 0, "e2e4"), "the second gets e2e4");
    claim(rt, takes(&mut two) == Taken::Cut, "the second is closed");
    claim(
        rt,
        leaves(two) == account(0, 1, 1, true),
        "the second leaves",
    );
    one
}

/// A third one comes, and the game ends.
fn a_third_to_the_end(rt: &impl Abort, board: &mut Board) {
    let mut three = follow(rt, board, Some(1));
    claim(rt, agrees(board), "a draw is agreed");
    claim(rt, gets(rt, &mut three, 1, "e7e5"), "the third gets e7e5");
    claim(
        rt,
        takes(&mut three) == Taken::Over(Outcome::Agreed),
        "the third is told the end",
    );
    drop(three);
}

#[test]
fn one_allocation_may_be_refused(rt: HostRuntime) {
    let limits = limits_of(&rt, 2, 1, 16);
    let mut board = open(&rt, rt.alloc(), limits);
    claim(&rt, is_bad_start(rt.alloc(), 960, limits), "no start 960");
    let mut one = one_of_two(&rt, &mut board);
    a_third_to_the_end(&rt, &mut board);
    claim(
        &rt,
        takes(&mut one) == Taken::Over(Outcome::Agreed),
        "the first is told the end",
    );
    claim(
        &rt,
        leaves(one) == account(0, 2, 2, false),
        "the first leaves",
    );
    drop(board);
}
