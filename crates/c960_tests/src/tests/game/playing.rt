//! Games and moves from their texts, and what a refused call must leave as it was.

use crate::tests::claims::claim_of;
use c960_board::{Position, read_move, write_fen};
use c960_game::{Ending, Game, Outcome, Refusal};
use std::alloc::{AllocError, Global};
use std::process::Abort;

/// A game from the standard array whose log may have that many moves.
pub fn standard(rt: &impl Abort, alloc: Global, plies: u16) -> Result<Game, AllocError> {
    assert!(rt; (1..=16384).contains(&plies));
    match Game::open(alloc, 518, plies) {
        Ok(game) => Ok(game),
        Err(refusal) => {
            let is_memory = refusal == Refusal::OutOfMemory;
            claim_of(rt, is_memory, "the refusal of start 518", refusal.name());
            Err(AllocError)
        }
    }
}

/// Whether the move of a text is accepted, and the game goes on.
pub fn goes_on(game: &mut Game, text: &str) -> bool {
    match read_move(text.as_bytes()) {
        Ok(m) => game.play(m) == Ok(None) && game.outcome().is_none(),
        Err(_) => false,
    }
}

/// Whether the move of a text ends the game with this outcome.
pub fn ends_by(game: &mut Game, text: &str, outcome: Outcome) -> bool {
    match read_move(text.as_bytes()) {
        Ok(m) => game.play(m) == Ok(Some(outcome)) && game.outcome() == Some(outcome),
        Err(_) => false,
    }
}

/// Whether an ending is accepted and ends the game with this outcome, and changes nothing else.
pub fn is_ended(game: &mut Game, ending: Ending, outcome: Outcome) -> bool {
    let before = snapshot_of(game);
    let answer = game.end(ending);
    let after = Snapshot {
        outcome: Some(outcome),
        ..before
    };
    answer == Ok(outcome) && snapshot_of(game) == after
}

/// Everything that can be seen of a game.
#[derive(Clone, Copy, PartialEq)]
struct Snapshot {
    start: u16,
    len: u16,
    outcome: Option<Outcome>,
    position: Position,
}

fn snapshot_of(game: &Game) -> Snapshot {
    Snapshot {
        start: game.start(),
        len: game.len(),
        outcome: game.outcome(),
        position: game.position(),
    }
}

/// Whether the move is refused with this refusal and changes nothing.
pub fn is_move_refused(game: &mut Game, text: &str, refusal: Refusal) -> bool {
    let before = snapshot_of(game);
    match read_move(text.as_bytes()) {
        Ok(m) => game.play(m) == Err(refusal) && snapshot_of(game) == before,
        Err(_) => false,
    }
}

/// Whether the ending is refused with this refusal and changes nothing.
pub fn is_ending_refused(game: &mut Game, ending: Ending, refusal: Refusal) -> bool {
    let before = snapshot_of(game);
    game.end(ending) == Err(refusal) && snapshot_of(game) == before
}

/// Whether the present position is written as that text.
pub fn is_written(game: &Game, text: &str) -> bool {
    write_fen(&game.position()).as_slice() == text.as_bytes()
}

/// Whether the move of a text is at a place of the log.
fn has_move(game: &Game, place: u16, text: &str) -> bool {
    match read_move(text.as_bytes()) {
        Ok(m) => game.move_at(place) == Some(m),
        Err(_) => false,
    }
}

/// Whether the log has the moves of the line, and none beyond.
pub fn has_log(game: &Game, moves: &str) -> bool {
    let mut place = 0u16;
    for text in moves.split(' ').filter(|text| !text.is_empty()) {
        if !has_move(game, place, text) {
            return false;
        }
        place = place.saturating_add(1);
    }
    game.len() == place && game.move_at(place).is_none() && game.move_at(65535).is_none()
}
