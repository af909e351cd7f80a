//! What tests do with live boards and their followers, by functions without clauses. Whoever calls these carries no clauses of a board
//! along, so that its proof is short.

use crate::tests::values::move_of;
use c960_game::{Ending, Limits, Outcome, Refusal};
use live_board::{Board, Follower};
use relay_core::{Account, Taken};
use std::alloc::Global;
use std::process::Abort;

/// A new board of this start. It is not refused, for lack of memory either (`again::open` asks once more then).
pub fn opened(rt: &impl Abort, alloc: Global, start: u16, limits: Limits) -> Board {
    let Ok(board) = Board::open(alloc, start, limits) else {
        panic!(rt; "no board {start}");
    };
    board
}

/// Whether no board is opened, since there is no such start.
pub fn is_bad_start(alloc: Global, start: u16, limits: Limits) -> bool {
    let opened = Board::open(alloc, start, limits);
    let is_bad = matches!(&opened, Err(Refusal::BadStart));
    drop(opened);
    is_bad
}

/// A new follower. It is not refused, for lack of memory either (`again::follow` asks once more then).
pub fn followed(rt: &impl Abort, board: &mut Board, from: Option<u16>) -> Follower {
    board.follow(from).expect(rt, "one follows")
}

/// Whether a board has no vacant slot.
pub fn is_full(board: &mut Board) -> bool {
    matches!(board.follow(None), Err(Refusal::TooManyFollowers))
}

/// Whether a board takes a move at this place, and its game goes on.
pub fn plays(rt: &impl Abort, board: &mut Board, place: u16, text: &str) -> bool {
    board.submit(move_of(rt, text)) == Ok((place, None))
}

/// Whether a board's game ends as a draw by agreement.
pub fn agrees(board: &mut Board) -> bool {
    board.end(Ending::Agreed) == Ok(Outcome::Agreed)
}

/// What a follower takes.
pub fn takes(follower: &mut Follower) -> Taken {
    follower.take()
}

/// Whether a follower takes the move at this place.
pub fn gets(rt: &impl Abort, follower: &mut Follower, place: u16, text: &str) -> bool {
    follower.take() == Taken::Move(place, move_of(rt, text))
}

/// The account of a follower that leaves.
pub fn leaves(follower: Follower) -> Account {
    let (account, _) = follower.leave();
    account
}
