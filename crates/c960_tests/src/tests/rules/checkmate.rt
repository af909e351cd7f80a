//! Check and checkmate (FIDE Laws, Articles 3.9 and 5.1.1).

use crate::tests::claims::claim;
use crate::tests::rules::reading::{after, is_written, standard};
use c960_board::Colour;
use c960_rules::{Lawful, State, any_legal, in_check, legal_moves, state};
use std::alloc::AllocError;

/// The shortest game that ends in checkmate from the standard array: each move with the position after it.
static FOOLS_MATE: [(&str, &str); 4] = [
    (
        "f2f3",
        "rnbqkbnr/pppppppp/8/8/8/5P2/PPPPP1PP/RNBQKBNR b HAha - 0 1",
    ),
    (
        "e7e5",
        "rnbqkbnr/pppp1ppp/8/4p3/8/5P2/PPPPP1PP/RNBQKBNR w HAha e6 0 2",
    ),
    (
        "g2g4",
        "rnbqkbnr/pppp1ppp/8/4p3/6P1/5P2/PPPPP2P/RNBQKBNR b HAha g3 0 2",
    ),
    (
        "d8h4",
        "rnb1kbnr/pppp1ppp/8/4p3/6Pq/5P2/PPPPP2P/RNBQKBNR w HAha - 1 3",
    ),
];

/// The moves of this game.
fn fools_mate() -> &'static [(&'static str, &'static str)] {
    &FOOLS_MATE
}

/// The position after a move from one where the game goes on, if the move is legal and that position is written as this text.
fn going_on(lawful: &Lawful, text: &str, position: &str) -> Option<Lawful> {
    if state(lawful) != State::Going || !any_legal(lawful) {
        return None;
    }
    let next = after(lawful, text)?;
    if is_written(&next, position) {
        Some(next)
    } else {
        None
    }
}

#[test]
fn fools_mate_ends_in_checkmate(rt: HostRuntime) -> Result<(), AllocError> {
    let mut reached = standard(&rt);
    for (text, position) in fools_mate() {
        reached = going_on(&reached, *text, *position).expect(&rt, *text);
    }
    claim(&rt, state(&reached) == State::Checkmate, "checkmate");
    let position = reached.position();
    claim(&rt, in_check(&position, Colour::White), "White is in check");
    claim(&rt, !in_check(&position, Colour::Black), "Black is not");
    claim(&rt, !any_legal(&reached), "no move is legal");
    let is_none = legal_moves(rt.alloc(), &reached)?.is_empty();
    claim(&rt, is_none, "no move is listed");
    Ok(())
}
