//! Crowds of followers, who come and leave in several orders: also more than the sixty-four whose tags a relay compares at once.

use crate::tests::relays::both::{Both, ask, both_of};
use crate::tests::relays::table::limits_of;
use crate::tests::values::{board_of, move_of};
use c960_board::Move;
use relay_core::{BoardName, Spectator, Step};
use std::alloc::Global;
use std::process::Abort;

/// How many follow a board at a time that is left in several orders.
const CROWD: u32 = 40;

/// The moves of each game.
static LINE: [&str; 8] = [
    "e2e4", "e7e5", "g1f3", "b8c6", "f1b5", "a7a6", "b5a4", "g8f6",
];

/// The move of this number, of eight.
fn move_by(rt: &impl Abort, number: u32) -> Move {
    move_of(rt, LINE[(number % 8) as usize])
}

/// The spectator that leaves after so many others: who came first, who came last, or one of those between.
fn leaver(order: u32, others: u32) -> Spectator {
    match order {
        0 => others,
        1 => (CROWD - 1).saturating_sub(others),
        _ => others % CROWD * 7 % CROWD,
    }
}

/// A crowd joins, ten at each place of the log.
fn gather(rt: &impl Abort, both: &mut Both, board: BoardName) {
    for who in 0..CROWD {
        if who % 10 == 0 {
            let m = move_by(rt, who / 10);
            let _ = ask(rt, both, &Step::Submit(board, m));
        }
        let _ = ask(rt, both, &Step::Follow(who, board, None));
    }
}

/// Half of a crowd leaves while the others take, those who left come again, and all leave.
fn come_and_go(rt: &impl Abort, both: &mut Both, board: BoardName, order: u32) {
    for others in 0..CROWD / 2 {
        let _ = ask(rt, both, &Step::Leave(leaver(order, others)));
        let taker = leaver(order, CROWD / 2 + others);
        let _ = ask(rt, both, &Step::Take(taker));
    }
    for who in 0..CROWD {
        let _ = ask(rt, both, &Step::Follow(who, board, Some(2)));
        let _ = ask(rt, both, &Step::Take(who));
    }
    for others in 0..CROWD {
        let _ = ask(rt, both, &Step::Leave(leaver(order, others)));
    }
}

#[test]
fn a_crowd_that_leaves_in_any_order_is_answered_alike(rt: HostRuntime) {
    let board = board_of(&rt, "crowded");
    for order in 0..3 {
        let mut both = both_of(&rt, rt.alloc(), limits_of(&rt, (1, 40, 64, 64)));
        let _ = ask(&rt, &mut both, &Step::Open(board, 518));
        gather(&rt, &mut both, board);
        come_and_go(&rt, &mut both, board, order);
        drop(both);
    }
}

/// How many follow at a time: as many as one or two looks take, and up to two fewer or more.
const FOLLOWERS: [u16; 10] = [62, 63, 64, 65, 66, 126, 127, 128, 129, 130];

/// The boards, whose followers are mixed. Of one board, the first has them all.
const BOARDS: [&str; 8] = ["a", "b", "c", "d", "e", "f", "g", "h"];

/// The board whose turn it is, of one or of eight.
fn board(rt: &impl Abort, boards: u32, turn: u32) -> BoardName {
    let index = if boards == 1 { 0 } else { turn % 8 };
    board_of(rt, BOARDS[index as usize])
}

/// The limits of these boards with room for these followers, and no more if their boards have as many each.
fn room_for(boards: u32, followers: u16) -> (u16, u16, u16, u16) {
    if boards == 1 {
        (1, followers, 3, 64)
    } else {
        (8, followers.div_ceil(8), 3, 64)
    }
}

/// The boards are opened, and the followers come, to each board by turns.
fn come(rt: &impl Abort, both: &mut Both, boards: u32, followers: u32) {
    for turn in 0..boards {
        let _ = ask(rt, both, &Step::Open(board(rt, boards, turn), 518));
    }
    for who in 0..followers {
        let _ = ask(rt, both, &Step::Follow(who, board(rt, boards, who), None));
    }
}

/// One more asks for a board, which may be full. Then a follower leaves, and asks for each board until one has room.
fn change(rt: &impl Abort, both: &mut Both, (boards, more): (u32, u32), who: u32, turn: u32) {
    let _ = ask(rt, both, &Step::Follow(more, board(rt, boards, turn), None));
    let _ = ask(rt, both, &Step::Leave(more));
    let _ = ask(rt, both, &Step::Leave(who));
    let mut has_room = false;
    for next in turn..turn.saturating_add(8) {
        if !has_room {
            has_room = ask(rt, both, &Step::Follow(who, board(rt, boards, next), None));
        }
    }
}

/// The same move on each board by turns, behind which one of the first followers and one of the last change. Then four of five take.
fn play(rt: &impl Abort, both: &mut Both, (boards, followers): (u32, u32), round: u32) {
    let m = move_by(rt, round);
    for turn in 0..boards {
        let _ = ask(rt, both, &Step::Submit(board(rt, boards, turn), m));
        let first = round.saturating_add(turn.saturating_mul(7));
        change(rt, both, (boards, followers), first, turn);
        let last = followers.saturating_sub(first.saturating_add(1));
        change(rt, both, (boards, followers), last, turn);
    }
    for who in 0..followers {
        if who % 5 != 0 {
            let _ = ask(rt, both, &Step::Take(who));
        }
    }
}

/// Gives relays with this many boards and followers the steps of eight rounds, behind which all take once more, and leave.
fn assert_alike(rt: &impl Abort, alloc: Global, boards: u32, followers: u16) {
    let mut both = both_of(rt, alloc, limits_of(rt, room_for(boards, followers)));
    let followers = u32::from(followers);
    come(rt, &mut both, boards, followers);
    for round in 0..8 {
        play(rt, &mut both, (boards, followers), round);
    }
    for who in 0..followers {
        let _ = ask(rt, &mut both, &Step::Take(who));
        let _ = ask(rt, &mut both, &Step::Leave(who));
    }
    drop(both);
}

#[test]
fn many_followers_are_answered_alike(rt: HostRuntime) {
    for followers in FOLLOWERS {
        assert_alike(&rt, rt.alloc(), 1, followers);
        assert_alike(&rt, rt.alloc(), 8, followers);
    }
}
