//! Replaying moves, which allocates nothing.

ghost use Rattle.std.specs.Prelude.{◌≡◌, ◌+◌, ◌≤◌, length, take};
ghost use Rattle.c960_game.specs.Positions.{position_after};
ghost use Rattle.c960_game.specs.Inner.Replay.{AllLegal};

use crate::kept_positions::MILE;
use c960_board::{Move, Position, Square};
use c960_rules::{Lawful, play_legal};
use std::marker::Model;

/// A position of a game that has yet to be worked out: one that the game keeps, and the moves after it. It needs neither memory nor the
/// game any more: a caller that borrows a game under a lock works the position out without the lock. Contracts see the position.
#[derive(Drop)]
pub struct Replaying {
    first: Lawful,
    moves: [Move; MILE],
    /// How many of them were made. Those after them fill up the array.
    made: usize,
}

impl Model for Replaying {
    ghost use Rattle.c960_board.specs.declared.parts.Parts.{Parts};
    ghost use Rattle.c960_game.specs.Inner.Replaying.{IsReplaying, position_of};

    ghost Value = { Parts };

    ghost view = { position_of };

    ghost invariant = { IsReplaying };
}

impl Replaying {
    /// The position after these legal moves, which are no more than lie between two positions that are kept.
    pub(crate) fn new(first: &Lawful, moves: &[Move]) -> Replaying
        requires few { length moves.now ≤ MILE }
        requires legal { AllLegal first.now moves.now }
        requires half_moves { first.now.half_moves + length moves.now ≤ 65535 }
        requires number { first.now.number + length moves.now ≤ 65535 }
        ensures { result ≡ position_after first.now moves.now }
    {
        Replaying {
            first: *first,
            moves: filled_up(moves),
            made: moves.len(),
        }
    }

    /// The position.
    pub fn position(&self) -> Position
        ensures { result ≡ self.now }
    {
        replay(&self.first, &self.moves[..self.made]).position()
    }
}

/// The moves, followed by as many others as fill up the array.
fn filled_up(moves: &[Move]) -> [Move; MILE]
    requires { length moves.now ≤ MILE }
    ensures { take (length moves.now) result ≡ moves.now }
{
    let mut row = [never_made(); MILE];
    row[..moves.len()].copy_from_slice(moves);
    row
}

/// Some move, which is never made.
fn never_made() -> Move {
    let Some(square) = Square::new(0) else {
        unreachable!();
    };
    Move {
        from: square,
        to: square,
        promotion: None,
    }
}

/// The position after these legal moves.
pub fn replay(first: &Lawful, moves: &[Move]) -> Lawful
    requires legal { AllLegal first.now moves.now }
    requires half_moves { first.now.half_moves + length moves.now ≤ 65535 }
    requires number { first.now.number + length moves.now ≤ 65535 }
    ensures { result ≡ position_after first.now moves.now }
{
    let mut position = *first;
    for m in moves {
        position = play_legal(&position, *m);
    }
    position
}
