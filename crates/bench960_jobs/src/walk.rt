//! Random games: a position, and the legal moves that lead from it.

use crate::chance::Chance;
use c960_board::{Kind, Move, Position};
use c960_rules::{Lawful, legal_moves, play};
use std::alloc::{AllocError, Global};

/// The position of a numbered start. Each number below 960 has one.
pub fn start(number: u16) -> Option<Lawful> {
    Lawful::of(Position::start(number)?).ok()
}

/// The position after a move, unless a counter is at its end.
pub fn after(lawful: &Lawful, m: Move) -> Option<Lawful> {
    let position = lawful.position();
    if position.half_moves() < 65535 && position.number() < 65535 {
        play(lawful, m)
    } else {
        None
    }
}

/// Whether the move neither captures nor moves a pawn.
fn is_quiet(position: &Position, m: &Move) -> bool {
    match position.piece_at(m.from) {
        Some(piece) => piece.kind != Kind::Pawn && position.piece_at(m.to).is_none(),
        None => false,
    }
}

/// One of the moves; of those that shuffle pieces, if that is wanted and a few tries find one.
fn choose(chance: &mut Chance, position: &Position, moves: &[Move], quiet: bool) -> Option<Move> {
    let mut chosen = *moves.get(chance.below(moves.len()))?;
    for _ in 0..8 {
        if !quiet || is_quiet(position, &chosen) {
            break;
        }
        chosen = *moves.get(chance.below(moves.len()))?;
    }
    Some(chosen)
}

/// A random legal move, and the position after it. None if there is none.
pub fn step(
    alloc: Global,
    chance: &mut Chance,
    lawful: &Lawful,
    quiet: bool,
) -> Result<Option<(Move, Lawful)>, AllocError> {
    let moves = legal_moves(alloc, lawful)?;
    let Some(m) = choose(chance, &lawful.position(), moves.as_slice(), quiet) else {
        return Ok(None);
    };
    match after(lawful, m) {
        Some(next) => Ok(Some((m, next))),
        None => Ok(None),
    }
}
