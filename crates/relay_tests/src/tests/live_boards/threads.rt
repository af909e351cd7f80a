//! A game that one thread plays while two others take its moves.

use crate::tests::claims::claim;
use crate::tests::deeds::{followed, is_full, leaves, opened};
use crate::tests::live_boards::games::{hundred_plies, limits_of};
use c960_board::Move;
use c960_game::{Ending, Outcome};
use live_board::{Board, Follower};
use relay_core::{Account, Taken};
use std::alloc::{AllocError, Global};
use std::process::Abort;
use std::thread::{self, JoinHandle, Threads};

/// How often a thread takes before it gives up.
const MOST_TAKES: u32 = 1_000_000;

/// What a follower took: the moves, whether each place followed the one before, and what came when there were no more.
#[derive(Drop)]
pub struct Took {
    pub moves: Vec<Move>,
    pub in_order: bool,
    pub last: Taken,
}

/// Takes until the game is over or the follower is closed, or `most` times.
pub fn take_all(alloc: Global, follower: &mut Follower, most: u32) -> Result<Took, AllocError> {
    let mut took = Took {
        moves: Vec::new(alloc),
        in_order: true,
        last: Taken::Nothing,
    };
    let mut next = follower.joined().saturating_add(follower.taken());
    for _ in 0..most {
        match follower.take() {
            Taken::Move(place, m) => {
                took.in_order = took.in_order && place == next;
                took.moves.push(m)?;
                next = next.saturating_add(1);
            }
            Taken::Nothing => {}
            last => {
                took.last = last;
                return Ok(took);
            }
        }
    }
    Ok(took)
}

/// Makes the moves, and then ends the game. Returns whether each was made at its place.
pub fn play_all(board: &mut Board, moves: &[Move]) -> bool {
    let mut place = 0u16;
    let mut fine = true;
    for m in moves {
        fine = fine && board.submit(*m) == Ok((place, None));
        place = place.saturating_add(1);
    }
    fine && board.end(Ending::Agreed) == Ok(Outcome::Agreed)
}

/// A follower takes what is left, which is added to what it had.
fn take_the_rest(rt: &impl Abort, alloc: Global, follower: &mut Follower, had: &mut Took) {
    let late = take_all(alloc, follower, 200).expect(rt, "memory");
    let added = had.moves.extend_from_slice(late.moves.as_slice());
    added.expect(rt, "memory");
    had.in_order = had.in_order && late.in_order;
    had.last = late.last;
    drop(late);
}

/// Whether the last answer is that the follower was closed, or all of the game was had and it is over.
fn is_last(had: &Took, plies: usize, cut: bool) -> bool {
    if cut {
        had.last == Taken::Cut
    } else {
        had.moves.len() == plies && had.last == Taken::Over(Outcome::Agreed)
    }
}

/// Asserts that the follower had the game up to its closing if it was closed, and otherwise all of it and then its end; and that its
/// account says so. Returns whether it was closed.
fn assert_had(rt: &impl Abort, moves: &[Move], had: &Took, account: Account) -> bool {
    let count = had.moves.len();
    claim(rt, had.in_order, "each place follows the one before");
    claim(rt, moves.starts_with(had.moves.as_slice()), "the game");
    claim(rt, account.joined == 0, "at the start");
    claim(rt, usize::from(account.taken) == count, "as many taken");
    claim(rt, usize::from(account.limit) == count, "as many known");
    claim(
        rt,
        is_last(had, moves.len(), account.cut),
        "the last answer",
    );
    account.cut
}

/// A follower, and what it has taken, or that there was no memory for it.
type Taking = (Follower, Result<Took, AllocError>);

/// A follower whose thread has ended, and what it had in all.
type Ended = (Follower, Took);

/// A thread in which a follower takes.
fn started<R: Threads + Abort>(
    rt: &R,
    alloc: Global,
    mut follower: Follower,
) -> JoinHandle<Taking> {
    let handle = thread::spawn(rt, move || {
        let took = take_all(alloc, &mut follower, MOST_TAKES);
        (follower, took)
    });
    handle.expect(rt, "a thread")
}

/// The follower of a thread that has ended, and what it had in all.
fn joined<R: Threads + Abort>(rt: &R, alloc: Global, handle: JoinHandle<Taking>) -> Ended {
    let (mut follower, early) = handle.join(rt);
    let mut had = early.expect(rt, "memory");
    take_the_rest(rt, alloc, &mut follower, &mut had);
    (follower, had)
}

/// Plays the board while two others take the moves, in threads of their own. Returns them with what each had.
fn play_with_two<R: Threads + Abort>(
    rt: &R,
    alloc: Global,
    board: &mut Board,
    moves: &[Move],
) -> (Ended, Ended) {
    let first = started(rt, alloc, followed(rt, board, None));
    let second = started(rt, alloc, followed(rt, board, None));
    claim(rt, play_all(board, moves), "each move is made at its place");
    (joined(rt, alloc, first), joined(rt, alloc, second))
}

/// Asserts what a follower had, and that its account says so. It leaves. Returns whether it was closed.
fn was_closed(rt: &impl Abort, moves: &[Move], ended: Ended) -> bool {
    let (follower, had) = ended;
    assert_had(rt, moves, &had, leaves(follower))
}

/// Whether two more may follow a board.
fn has_room_for_two(board: &mut Board) -> bool {
    board.follow(None).is_ok() && board.follow(None).is_ok()
}

/// Plays a game while two others, whose queues hold `capacity` moves, take it. Returns whether one of them was closed.
fn play_before_two<R: Threads + Abort>(
    rt: &R,
    alloc: Global,
    moves: &[Move],
    capacity: u16,
) -> bool {
    let mut board = opened(rt, alloc, 518, limits_of(rt, 2, capacity, 1024));
    let (first, second) = play_with_two(rt, alloc, &mut board, moves);
    claim(rt, is_full(&mut board), "both slots are taken");
    let is_first_closed = was_closed(rt, moves, first);
    let is_second_closed = was_closed(rt, moves, second);
    claim(rt, has_room_for_two(&mut board), "both slots are vacant");
    drop(board);
    is_first_closed || is_second_closed
}

#[test]
fn two_threads_take_in_a_game(rt: HostRuntime) {
    let alloc = rt.alloc();
    let moves = hundred_plies(&rt, alloc);
    // No follower is closed whose queue holds the whole game.
    for capacity in [128, 1024] {
        let is_closed = play_before_two(&rt, alloc, moves.as_slice(), capacity);
        claim(&rt, !is_closed, "room for the whole game");
    }
    for _ in 0..50 {
        play_before_two(&rt, alloc, moves.as_slice(), 4);
    }
}
