//! Positions and moves from their texts, and the positions that moves lead to.

use crate::tests::claims::claim_of;
use c960_board::{Move, Position, read_fen, read_move, write_fen};
use c960_rules::{Lawful, play};
use std::process::Abort;

/// The lawful position of a text, if it is one.
pub fn lawful_of(text: &str) -> Option<Lawful> {
    match read_fen(text.as_bytes()) {
        Ok(position) => Lawful::of(position).ok(),
        Err(_) => None,
    }
}

/// The lawful position of a text.
pub fn position_of(rt: &impl Abort, text: &str) -> Lawful {
    lawful_of(text).expect(rt, text)
}

/// The starting position of a number, if there is one.
pub fn start(number: u16) -> Option<Lawful> {
    match Position::start(number) {
        Some(position) => Lawful::of(position).ok(),
        None => None,
    }
}

/// The starting position of number 518.
pub fn standard(rt: &impl Abort) -> Lawful {
    start(518).expect(rt, "a start")
}

/// The move of a text.
pub fn move_of(rt: &impl Abort, text: &str) -> Move {
    read_move(text.as_bytes()).expect(rt, "a move")
}

/// The position after a move, or none if the move is not legal or a counter is full.
pub fn played(lawful: &Lawful, m: Move) -> Option<Lawful> {
    let position = lawful.position();
    if position.half_moves() == 65535 || position.number() == 65535 {
        return None;
    }
    play(lawful, m)
}

/// The position after the move of a text.
fn played_text(lawful: &Lawful, text: &str) -> Option<Lawful> {
    match read_move(text.as_bytes()) {
        Ok(m) => played(lawful, m),
        Err(_) => None,
    }
}

/// The position after legal moves, whose texts are in a line, separated by spaces.
pub fn after(lawful: &Lawful, moves: &str) -> Option<Lawful> {
    let mut reached = *lawful;
    for text in moves.split(' ') {
        reached = played_text(&reached, text)?;
    }
    Some(reached)
}

/// Whether the position is written as that text.
pub fn is_written(lawful: &Lawful, text: &str) -> bool {
    write_fen(&lawful.position()).as_slice() == text.as_bytes()
}

/// Whether legal moves lead from a position to the one that is written as this text.
pub fn leads_from(lawful: &Lawful, moves: &str, reached: &str) -> bool {
    match after(lawful, moves) {
        Some(next) => is_written(&next, reached),
        None => false,
    }
}

/// Whether legal moves lead from the position of a text to that of another.
fn leads(before: &str, moves: &str, reached: &str) -> bool {
    match lawful_of(before) {
        Some(lawful) => leads_from(&lawful, moves, reached),
        None => false,
    }
}

/// A position, a move, and the position after it.
pub type Played = (&'static str, &'static str, &'static str);

/// Asserts that the move of each row is legal and leads to the position after it.
pub fn assert_played(rt: &impl Abort, rows: &[Played]) {
    for (before, m, reached) in rows {
        claim_of(rt, leads(before, m, reached), *m, *before);
    }
}
