//! Lists of legal moves, ordered by the square that is left, then by the goal, then by the promotion.

use crate::tests::claims::claim_of;
use crate::tests::rules::reading::lawful_of;
use c960_board::{Move, read_move};
use c960_rules::legal_moves;
use std::alloc::{AllocError, Global};
use std::process::Abort;

/// Whether these moves are those of the line, in the same order, separated by spaces.
fn are(moves: &[Move], line: &str) -> bool {
    let mut place = 0usize;
    for text in line.split(' ').filter(|text| !text.is_empty()) {
        if read_move(text.as_bytes()).ok() != moves.get(place).copied() {
            return false;
        }
        place = place.saturating_add(1);
    }
    moves.len() == place
}

/// Whether the legal moves of the position are those of the line.
fn is_listed(alloc: Global, position: &str, moves: &str) -> Result<bool, AllocError> {
    let Some(lawful) = lawful_of(position) else {
        return Ok(false);
    };
    let listed = legal_moves(alloc, &lawful)?;
    Ok(are(listed.as_slice(), moves))
}

/// Asserts that the legal moves of the position are those of the line, in the same order, separated by spaces.
pub fn assert_list(rt: &impl Abort, alloc: Global, position: &str, moves: &str) {
    let is_so = is_listed(alloc, position, moves) == Ok(true);
    claim_of(rt, is_so, "the list", moves);
}
