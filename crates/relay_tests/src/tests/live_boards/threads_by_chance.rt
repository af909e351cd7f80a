//! A game that one thread plays while followers come, take in threads of their own, and leave again, many times over.

use crate::tests::chance::Dice;
use crate::tests::claims::{claim, claim_at};
use crate::tests::deeds::{agrees, leaves, opened};
use crate::tests::live_boards::games::{hundred_plies, limits_of};
use crate::tests::live_boards::threads::{Took, take_all};
use c960_board::Move;
use c960_game::{Outcome, Refusal};
use live_board::{Board, Follower};
use relay_core::{Account, Taken};
use std::alloc::{AllocError, Global};
use std::process::Abort;
use std::thread;
use std::thread::{JoinHandle, Threads};

/// What a follower has had, and its account.
type Visit = (u16, Result<Took, AllocError>, Account);

/// Takes for this many turns, or until it is closed or the game is over, and leaves.
fn visit(alloc: Global, mut follower: Follower, most: u32) -> Visit {
    let joined = follower.joined();
    let took = take_all(alloc, &mut follower, most);
    (joined, took, leaves(follower))
}

/// Whether a follower that had the game up to a place may know it up to its limit.
fn is_limit(account: &Account, to: usize, plies: usize) -> bool {
    let limit = usize::from(account.limit);
    to <= limit && limit <= plies
}

/// Whether a follower that had the game up to a place may be answered so last.
fn is_last(last: Taken, account: &Account, to: usize, plies: usize) -> bool {
    match last {
        Taken::Cut => account.cut && usize::from(account.limit) == to,
        Taken::Over(outcome) => outcome == Outcome::Agreed && to == plies && !account.cut,
        _ => true,
    }
}

/// Asserts that the follower's moves are the stretch of the game from its joining place, and that its account says so.
fn assert_stretch(rt: &impl Abort, moves: &[Move], visit: Visit) {
    let (joined, took, account) = visit;
    let took = took.expect(rt, "memory");
    claim(rt, took.in_order, "each place follows the one before");
    claim(rt, account.joined == joined, "where it joined");
    let count = usize::from(account.taken);
    claim(rt, count == took.moves.len(), "as many taken");
    let from = moves.get(usize::from(joined)..);
    let is_stretch = from
        .expect(rt, "a place")
        .starts_with(took.moves.as_slice());
    claim(rt, is_stretch, "a stretch of the game");
    let to = usize::from(joined).saturating_add(count);
    claim(rt, is_limit(&account, to, moves.len()), "what it knew");
    claim(
        rt,
        is_last(took.last, &account, to, moves.len()),
        "the last answer",
    );
    drop(took);
}

/// A follower from the present or a place back; none if the board is full.
fn follower_or_full(rt: &impl Abort, board: &mut Board, way: u32) -> Option<Follower> {
    let from = match way {
        0 => Some(board.len()),
        1 => Some(board.len().saturating_sub(1)),
        _ => None,
    };
    match board.follow(from) {
        Ok(follower) => Some(follower),
        Err(refusal) => {
            claim(rt, refusal == Refusal::TooManyFollowers, "a full board");
            None
        }
    }
}

/// A follower comes, from the present or a place back, and takes in a thread of its own; none does if the board is full.
fn come<R: Threads + Abort>(
    rt: &R,
    alloc: Global,
    board: &mut Board,
    dice: &mut Dice,
    visits: &mut Vec<JoinHandle<Visit>>,
) {
    let Some(follower) = follower_or_full(rt, board, dice.roll() % 3) else {
        return;
    };
    let most = dice.roll() % 2000;
    let handle = thread::spawn(rt, move || visit(alloc, follower, most));
    let added = visits.push(handle.expect(rt, "a thread"));
    added.expect(rt, "memory");
}

/// Asserts that each had a stretch of the game. Returns how many came.
fn all_had_stretches<R: Threads + Abort>(
    rt: &R,
    moves: &[Move],
    visits: Vec<JoinHandle<Visit>>,
) -> u32 {
    let mut count = 0u32;
    for handle in visits {
        assert_stretch(rt, moves, handle.join(rt));
        count = count.wrapping_add(1);
    }
    count
}

/// Whether another one finds a slot behind the last move, and leaves.
fn has_room(alloc: Global, board: &mut Board) -> bool {
    match board.follow(None) {
        Ok(follower) => visit(alloc, follower, 1).0 == 100,
        Err(_) => false,
    }
}

/// One game, with the visits that it had.
fn play<R: Threads + Abort>(
    rt: &R,
    alloc: Global,
    moves: &[Move],
    capacity: u16,
    dice: &mut Dice,
) -> u32 {
    let mut board = opened(rt, alloc, 518, limits_of(rt, 3, capacity, 1024));
    let visits = visits_of(rt, alloc, &mut board, moves, dice);
    claim(rt, agrees(&mut board), "a draw is agreed");
    let count = all_had_stretches(rt, moves, visits);
    // All have left, so that there is as much room as ever.
    for _ in 0..3 {
        claim(rt, has_room(alloc, &mut board), "a vacant slot");
    }
    drop(board);
    count
}

/// Makes the moves, and has followers come meanwhile.
fn visits_of<R: Threads + Abort>(
    rt: &R,
    alloc: Global,
    board: &mut Board,
    moves: &[Move],
    dice: &mut Dice,
) -> Vec<JoinHandle<Visit>> {
    let mut visits = Vec::new(alloc);
    let mut place = 0u16;
    for m in moves {
        if dice.roll() % 4 == 0 {
            come(rt, alloc, board, dice, &mut visits);
        }
        claim(rt, is_taken(board, *m, place), "the next move");
        place = place.saturating_add(1);
    }
    visits
}

/// Whether a board takes a move at this place, and its game goes on.
fn is_taken(board: &mut Board, m: Move, place: u16) -> bool {
    board.submit(m) == Ok((place, None))
}

#[test]
fn what_each_follower_had_is_a_stretch_of_the_game(rt: HostRuntime) {
    let alloc = rt.alloc();
    let moves = hundred_plies(&rt, alloc);
    let mut dice = Dice { seed: 518 };
    let mut count = 0u32;
    for capacity in [1, 1, 2, 3, 5, 8, 64, 128] {
        for _ in 0..10 {
            count = count.wrapping_add(play(&rt, alloc, moves.as_slice(), capacity, &mut dice));
        }
    }
    claim_at(
        &rt,
        count > 100,
        "visits, more than 100 wanted, were",
        count as usize,
    );
}
