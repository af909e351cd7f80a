//! What a board is opened with, its moves and its positions.

use crate::tests::claims::{claim, claim_of};
use crate::tests::deeds::{opened, plays};
use crate::tests::live_boards::games::limits_of;
use crate::tests::values::{
    FOUR_PLIES, ONE_PLY, START_518, THREE_PLIES, TWO_PLIES, move_of, position_of,
};
use live_board::Board;
use std::process::Abort;

/// Moves from start 518, each with the position after it.
static GAME: [(&str, &str); 4] = [
    ("e2e4", ONE_PLY),
    ("e7e5", TWO_PLIES),
    ("g1f3", THREE_PLIES),
    ("b8c6", FOUR_PLIES),
];

/// The moves.
fn game() -> &'static [(&'static str, &'static str); 4] {
    &GAME
}

/// Whether a board has this move at this place, and this position behind it; and so that of its last move.
fn has(rt: &impl Abort, board: &Board, place: u16, (text, fen): (&str, &str)) -> bool {
    let position = position_of(rt, fen);
    let plies = place.saturating_add(1);
    board.move_at(place) == Some(move_of(rt, text))
        && board.position_at(plies) == Some(position)
        && (board.len() != plies || board.position() == position)
}

/// Whether a board has no move, and has not ended.
fn is_new(board: &Board) -> bool {
    board.len() == 0 && board.outcome().is_none() && board.move_at(0).is_none()
}

/// Whether a board began at start 518.
fn began_at_518(rt: &impl Abort, board: &Board) -> bool {
    board.start() == 518 && board.position_at(0) == Some(position_of(rt, START_518))
}

/// Asserts that a board of four moves has none past them, and no position past the last.
fn assert_no_more(rt: &impl Abort, board: &Board) {
    for past in [4, 5, 65535] {
        claim(rt, board.move_at(past).is_none(), "no move there");
    }
    claim(rt, board.position_at(5).is_none(), "no position there");
}

#[test]
fn its_moves_and_positions_are_those_of_the_game(rt: HostRuntime) {
    let mut board = opened(&rt, rt.alloc(), 518, limits_of(&rt, 1, 2, 1024));
    claim(&rt, is_new(&board), "it is new");
    for place in 0..4u16 {
        let (text, fen) = game()[usize::from(place)];
        let is_played = plays(&rt, &mut board, place, text);
        let has_it = has(&rt, &board, place, (text, fen));
        claim_of(&rt, is_played && has_it, "the move", text);
    }
    for place in 0..4u16 {
        let (text, fen) = game()[usize::from(place)];
        claim_of(&rt, has(&rt, &board, place, (text, fen)), "then", text);
    }
    claim(&rt, began_at_518(&rt, &board), "its start");
    assert_no_more(&rt, &board);
    drop(board);
}
