//! Calls that are made again if they were refused for lack of memory: where one allocation is refused, the second call is accepted.

use crate::tests::claims::claim;
use c960_game::{Limits, Refusal};
use live_board::{Board, Follower};
use std::alloc::Global;
use std::process::Abort;

/// A new board of start 518, opened again if it was refused.
pub fn open(rt: &impl Abort, alloc: Global, limits: Limits) -> Board {
    match Board::open(alloc, 518, limits) {
        Ok(board) => board,
        Err(refusal) => {
            claim(rt, refusal == Refusal::OutOfMemory, "want of memory");
            Board::open(alloc, 518, limits).expect(rt, "one refusal at the most")
        }
    }
}

/// A follower, asked for again if it was refused: then the board is as it was.
pub fn follow(rt: &impl Abort, board: &mut Board, from: Option<u16>) -> Follower {
    let len = board.len();
    match board.follow(from) {
        Ok(follower) => follower,
        Err(refusal) => {
            claim(rt, refusal == Refusal::OutOfMemory, "want of memory");
            claim(rt, board.len() == len, "as many moves as before");
            board.follow(from).expect(rt, "one refusal at the most")
        }
    }
}
