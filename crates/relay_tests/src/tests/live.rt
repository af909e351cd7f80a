//! What is pushed from a follower of a live board. The rows hold with ample memory, and if one allocation is refused
//! (`rt try --test --fail-alloc N`): then pushing ends after the texts that were sent before.

use crate::tests::again::{follow, open};
use crate::tests::claims::claim;
use crate::tests::deeds::{is_full, leaves, plays};
use crate::tests::pushing::{NO_DEVICE, assert_cut};
use crate::tests::relays::table::limits_of;
use crate::tests::values::account;
use live_board::{Board, Follower};
use relay_core::Taken;
use relay_pushing::{PushEnd, Source};
use std::alloc::Global;
use std::process::Abort;

/// A follower of a live board, which gives what the follower takes.
#[derive(Drop)]
struct Live {
    follower: Follower,
}

impl Source for Live {
    ghost use Rattle.live_board.specs.Takes.{Stays, Took};

    ghost gives = { λ old taken new. Stays old.follower new.follower × Took old.follower new.follower taken };

    fn take(&mut self) -> Taken {
        self.follower.take()
    }
}

/// A board that one spectator may follow and whose queues hold two moves, and its follower, which was closed when the third move was made.
fn full_queue(rt: &impl Abort, alloc: Global) -> (Board, Live) {
    let mut board = open(rt, alloc, limits_of(rt, (1, 1, 2, 64)));
    let follower = follow(rt, &mut board, None);
    for (place, text) in [(0, "e2e4"), (1, "e7e5"), (2, "g1f3")] {
        claim(rt, plays(rt, &mut board, place, text), text);
    }
    (board, Live { follower })
}

/// Asserts that the follower leaves with this many moves taken, and that its slot on the board is given back.
fn assert_leaves(rt: &impl Abort, mut board: Board, live: Live, taken: u16) {
    claim(rt, is_full(&mut board), "its slot is taken");
    let told = leaves(live.follower);
    claim(rt, told == account(0, taken, 2, true), "its account");
    let told = leaves(follow(rt, &mut board, None));
    claim(rt, told == account(3, 0, 3, false), "its slot is vacant");
    drop(board);
}

#[test]
fn cut_pushed_from_a_live_board(rt: HostRuntime) {
    // How many texts the device takes, how pushing ends, and how many texts were sent.
    for (room, wanted, texts) in [(9, PushEnd::Cut, 3), (1, NO_DEVICE, 1)] {
        let (board, mut live) = full_queue(&rt, rt.alloc());
        assert_cut(&rt, rt.alloc(), &mut live, room, (wanted, texts));
        // A move whose text was not sent has been taken all the same.
        assert_leaves(&rt, board, live, 2);
    }
}

#[test]
fn who_was_closed_may_leave_with_nothing_taken(rt: HostRuntime) {
    let (board, live) = full_queue(&rt, rt.alloc());
    assert_leaves(&rt, board, live, 0);
}
