//! Plain references: trying every move, and what can be read off the list of legal moves.

use c960_board::{Kind, Move, Square};
use c960_rules::{Lawful, State, in_check};
use std::alloc::{AllocError, Global};

/// The move at a place in the order by the square that is left, then by the goal, then by the promotion.
fn move_at(place: u64) -> Option<Move> {
    Move::of_code(place / 320 + 64 * (place / 5 % 64) + 4096 * (place % 5))
}

/// The moves that are legal by this test, found by trying all 20,480 moves in order.
pub fn legal_by<F: Fn(Move) -> bool>(alloc: Global, is_legal: F) -> Result<Vec<Move>, AllocError>
    requires { F.IsAlwaysCallable is_legal }
{
    let mut found = Vec::new(alloc);
    for place in 0..20480 {
        if let Some(m) = move_at(place)
            && is_legal(m)
        {
            found.push(m)?;
        }
    }
    Ok(found)
}

/// The state, derived from the legal moves.
pub fn state_of_list(lawful: &Lawful, moves: &[Move]) -> State {
    let position = lawful.position();
    match (moves.is_empty(), in_check(&position, position.turn())) {
        (false, _) => State::Going,
        (true, true) => State::Checkmate,
        (true, false) => State::Stalemate,
    }
}

/// The target, if a legal move takes a pawn on it en passant.
pub fn ep_of_list(lawful: &Lawful, moves: &[Move]) -> Option<Square> {
    let position = lawful.position();
    for m in moves {
        let is_pawn = match position.piece_at(m.from) {
            Some(piece) => piece.kind == Kind::Pawn,
            None => false,
        };
        let is_aside = m.from.number() % 8 != m.to.number() % 8;
        if is_pawn && is_aside && position.target() == Some(m.to) {
            return Some(m.to);
        }
    }
    None
}
