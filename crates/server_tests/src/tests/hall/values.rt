//! What the texts of the random events stand for. All games go the same way, so that one move of four is legal at a time.

use crate::tests::chance::text_at;
use crate::tests::hall::plain::Answer;
use crate::tests::hall::room::room;
use c960_board::{Move, Position, read_fen, read_move};
use relay_core::BoardName;
use std::alloc::Global;
use std::process::Abort;

/// Keys that are nearly alike, and one of the greatest length.
static KEYS: [&str; 6] = [
    "key-number-0000000",
    "key-number-0000001",
    "key-number-000000_",
    "key-number-00000000",
    "1ey-number-0000000",
    "another-key-of-the-greatest-length-0123456789-0123456789-0123456",
];

/// The names of boards, by their numbers.
static NAMES: [&str; 20] = [
    "b0", "b1", "b2", "b3", "b4", "b5", "b6", "b7", "b8", "b9", "b10", "b11", "b12", "b13", "b14",
    "b15", "b16", "b17", "b18", "b19",
];

/// Two knights out and home again. After any number of these moves only the next one is legal.
static MOVES: [&str; 4] = ["g1f3", "g8f6", "f3g1", "f6g8"];

/// What each of these moves is answered, by its place.
static PLAYED: [&str; 10] = [
    "{\"outcome\":null,\"place\":0,\"reply\":\"played\"}",
    "{\"outcome\":null,\"place\":1,\"reply\":\"played\"}",
    "{\"outcome\":null,\"place\":2,\"reply\":\"played\"}",
    "{\"outcome\":null,\"place\":3,\"reply\":\"played\"}",
    "{\"outcome\":null,\"place\":4,\"reply\":\"played\"}",
    "{\"outcome\":null,\"place\":5,\"reply\":\"played\"}",
    "{\"outcome\":null,\"place\":6,\"reply\":\"played\"}",
    "{\"outcome\":null,\"place\":7,\"reply\":\"played\"}",
    "{\"outcome\":null,\"place\":8,\"reply\":\"played\"}",
    "{\"outcome\":null,\"place\":9,\"reply\":\"played\"}",
];

/// The positions after that many of these moves.
static POSITIONS: [&str; 11] = [
    "rnbqkbnr/pppppppp/8/8/8/8/PPPPPPPP/RNBQKBNR w HAha - 0 1",
    "rnbqkbnr/pppppppp/8/8/8/5N2/PPPPPPPP/RNBQKB1R b HAha - 1 1",
    "rnbqkb1r/pppppppp/5n2/8/8/5N2/PPPPPPPP/RNBQKB1R w HAha - 2 2",
    "rnbqkb1r/pppppppp/5n2/8/8/8/PPPPPPPP/RNBQKBNR b HAha - 3 2",
    "rnbqkbnr/pppppppp/8/8/8/8/PPPPPPPP/RNBQKBNR w HAha - 4 3",
    "rnbqkbnr/pppppppp/8/8/8/5N2/PPPPPPPP/RNBQKB1R b HAha - 5 3",
    "rnbqkb1r/pppppppp/5n2/8/8/5N2/PPPPPPPP/RNBQKB1R w HAha - 6 4",
    "rnbqkb1r/pppppppp/5n2/8/8/8/PPPPPPPP/RNBQKBNR b HAha - 7 4",
    "rnbqkbnr/pppppppp/8/8/8/8/PPPPPPPP/RNBQKBNR w HAha - 8 5",
    "rnbqkbnr/pppppppp/8/8/8/5N2/PPPPPPPP/RNBQKB1R b HAha - 9 5",
    "rnbqkb1r/pppppppp/5n2/8/8/5N2/PPPPPPPP/RNBQKB1R w HAha - 10 6",
];

/// What a follow from the place of each of them is answered.
static FOLLOWING: [&str; 11] = [
    "{\"fen\":\"rnbqkbnr/pppppppp/8/8/8/8/PPPPPPPP/RNBQKBNR w HAha - 0 1\",\"joined\":0,\"reply\":\"following\"}",
    "{\"fen\":\"rnbqkbnr/pppppppp/8/8/8/5N2/PPPPPPPP/RNBQKB1R b HAha - 1 1\",\"joined\":1,\"reply\":\"following\"}",
    "{\"fen\":\"rnbqkb1r/pppppppp/5n2/8/8/5N2/PPPPPPPP/RNBQKB1R w HAha - 2 2\",\"joined\":2,\"reply\":\"following\"}",
    "{\"fen\":\"rnbqkb1r/pppppppp/5n2/8/8/8/PPPPPPPP/RNBQKBNR b HAha - 3 2\",\"joined\":3,\"reply\":\"following\"}",
    "{\"fen\":\"rnbqkbnr/pppppppp/8/8/8/8/PPPPPPPP/RNBQKBNR w HAha - 4 3\",\"joined\":4,\"reply\":\"following\"}",
    "{\"fen\":\"rnbqkbnr/pppppppp/8/8/8/5N2/PPPPPPPP/RNBQKB1R b HAha - 5 3\",\"joined\":5,\"reply\":\"following\"}",
    "{\"fen\":\"rnbqkb1r/pppppppp/5n2/8/8/5N2/PPPPPPPP/RNBQKB1R w HAha - 6 4\",\"joined\":6,\"reply\":\"following\"}",
    "{\"fen\":\"rnbqkb1r/pppppppp/5n2/8/8/8/PPPPPPPP/RNBQKBNR b HAha - 7 4\",\"joined\":7,\"reply\":\"following\"}",
    "{\"fen\":\"rnbqkbnr/pppppppp/8/8/8/8/PPPPPPPP/RNBQKBNR w HAha - 8 5\",\"joined\":8,\"reply\":\"following\"}",
    "{\"fen\":\"rnbqkbnr/pppppppp/8/8/8/5N2/PPPPPPPP/RNBQKB1R b HAha - 9 5\",\"joined\":9,\"reply\":\"following\"}",
    "{\"fen\":\"rnbqkb1r/pppppppp/5n2/8/8/5N2/PPPPPPPP/RNBQKB1R w HAha - 10 6\",\"joined\":10,\"reply\":\"following\"}",
];

fn keys() -> &'static [&'static str] {
    &KEYS
}

fn names() -> &'static [&'static str] {
    &NAMES
}

fn moves() -> &'static [&'static str] {
    &MOVES
}

fn played() -> &'static [&'static str] {
    &PLAYED
}

/// The texts of the positions.
fn fens() -> &'static [&'static str] {
    &POSITIONS
}

/// The answers to follows.
fn followings() -> &'static [&'static str] {
    &FOLLOWING
}

/// The text of the key of this number, or none.
pub fn key_text(number: usize) -> &'static str {
    text_at(keys(), number)
}

/// The text of the name of this number.
pub fn name_text(number: u32) -> &'static str {
    text_at(names(), number as usize)
}

/// The name of this number.
pub fn name(number: u32) -> Option<BoardName> {
    BoardName::new(name_text(number).as_bytes())
}

/// The text of the move of this place.
pub fn move_text(place: u16) -> &'static str {
    text_at(moves(), usize::from(place % 4))
}

/// The move of this place.
pub fn move_at(place: u16) -> Option<Move> {
    read_move(move_text(place).as_bytes()).ok()
}

/// The move before this place.
pub fn last(place: u16) -> Option<Move> {
    if place == 0 {
        None
    } else {
        move_at(place.wrapping_sub(1))
    }
}

/// The text of the answer.
pub fn text_of(answer: Answer) -> &'static str {
    match answer {
        Answer::Text(text) => text,
        Answer::Played(place) => text_at(played(), usize::from(place)),
        Answer::Joined(_, place) => text_at(followings(), usize::from(place)),
    }
}

/// The positions.
#[derive(Drop)]
pub struct Values {
    positions: Vec<Position>,
}

impl Values {
    pub fn new(rt: &impl Abort, alloc: Global) -> Values {
        let mut positions = room(rt, alloc, fens().len());
        for text in fens() {
            let position = read_fen(text.as_bytes()).expect(rt, "a position");
            positions.push(position).expect(rt, "there is room");
        }
        Values { positions }
    }

    /// The position after that many moves.
    pub fn position(&self, plies: u16) -> Option<Position> {
        self.positions.get(usize::from(plies)).copied()
    }
}
