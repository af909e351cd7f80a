//! Games of many moves.

use crate::tests::relays::table::limits_of as limits_of_boards;
use crate::tests::values::{NINETY_EIGHT, move_of};
use c960_board::Move;
use c960_game::Limits;
use std::alloc::Global;
use std::process::Abort;

/// The limits of one board: followers, capacity, plies.
pub fn limits_of(rt: &impl Abort, followers: u16, capacity: u16, plies: u16) -> Limits {
    limits_of_boards(rt, (1, followers, capacity, plies))
}

/// The moves of a line, in which one space stands between two.
pub fn line_of(rt: &impl Abort, alloc: Global, line: &str) -> Vec<Move> {
    let mut moves = Vec::new(alloc);
    for text in line.split(' ') {
        moves.push(move_of(rt, text)).expect(rt, "memory");
    }
    moves
}

/// A game of a hundred plies from start 518 without a pawn's move or a capture, so that White may claim a draw after it.
pub fn hundred_plies(rt: &impl Abort, alloc: Global) -> Vec<Move> {
    let mut moves = line_of(rt, alloc, NINETY_EIGHT);
    let mut last = line_of(rt, alloc, "g1f3 g8f6");
    moves.append(&mut last).expect(rt, "memory");
    moves
}
