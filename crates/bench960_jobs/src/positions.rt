//! Positions, as a page that lists legal moves or a checker of games asks for them: along random games from the numbered starts each
//! position is looked at that a legal move leads to, and so are some positions full of queens.

use crate::chance::Chance;
use crate::digest::Digest;
use crate::walk::{after, start};
use c960_board::{
    CastlingRights, Colour, FenBytes, Kind, Move, Parts, Piece, Position, read_fen, write_fen,
};
use c960_rules::{Lawful, legal_moves, state};
use std::alloc::{AllocError, Global};

/// How many plies of each game are played.
const PLIES: u16 = 40;

/// A position with its legal moves and its text.
#[derive(Drop)]
struct Ahead {
    lawful: Lawful,
    moves: Vec<Move>,
    text: FenBytes,
}

/// Looks at a position: its legal moves, its state and its text.
fn look(alloc: Global, digest: &mut Digest, lawful: Lawful) -> Result<Ahead, AllocError> {
    let moves = legal_moves(alloc, &lawful)?;
    for m in moves.iter() {
        digest.add(m.code());
    }
    digest.add(state(&lawful) as u64);
    let text = write_fen(&lawful.position());
    digest.add_bytes(text.as_slice());
    Ok(Ahead {
        lawful,
        moves,
        text,
    })
}

/// Looks at the position after each legal move, and returns the one after the move with this number.
fn look_ahead(
    alloc: Global,
    digest: &mut Digest,
    here: &Ahead,
    chosen: usize,
) -> Result<Option<Ahead>, AllocError> {
    let mut kept = None;
    for (number, m) in here.moves.iter().enumerate() {
        if let Some(next) = after(&here.lawful, *m) {
            let ahead = look(alloc, digest, next)?;
            if number == chosen {
                kept = Some(ahead);
            }
        }
    }
    Ok(kept)
}

/// Reads the text of a position again.
fn read_again(digest: &mut Digest, here: &Ahead) {
    let is_same = read_fen(here.text.as_slice()) == Ok(here.lawful.position());
    digest.add(u64::from(is_same));
}

/// Walks through a random game, and looks at each position that a legal move leads to.
fn walk(
    alloc: Global,
    chance: &mut Chance,
    digest: &mut Digest,
    first: Lawful,
) -> Result<(), AllocError> {
    let mut here = look(alloc, digest, first)?;
    for _ in 0..PLIES {
        read_again(digest, &here);
        let chosen = chance.below(here.moves.len());
        match look_ahead(alloc, digest, &here, chosen)? {
            Some(next) => here = next,
            None => break,
        }
    }
    Ok(())
}

/// Puts pieces of this kind and side on random squares.
fn scatter(
    chance: &mut Chance,
    placement: &mut [Option<Piece>; 64],
    colour: Colour,
    kind: Kind,
    count: u8,
) {
    for _ in 0..count {
        if let Some(cell) = placement.get_mut(chance.below(64)) {
            *cell = Some(Piece { colour, kind });
        }
    }
}

/// No castling rights.
const NO_RIGHTS: CastlingRights = CastlingRights {
    white: [false; 8],
    black: [false; 8],
};

/// A random position with many queens, which White has most of. None if a piece covers a king, or if Black is in check.
fn with_queens(chance: &mut Chance) -> Option<Lawful> {
    let mut placement = [None; 64];
    scatter(chance, &mut placement, Colour::White, Kind::Queen, 9);
    scatter(chance, &mut placement, Colour::Black, Kind::Queen, 1);
    scatter(chance, &mut placement, Colour::Black, Kind::Rook, 2);
    scatter(chance, &mut placement, Colour::White, Kind::Knight, 2);
    scatter(chance, &mut placement, Colour::White, Kind::King, 1);
    scatter(chance, &mut placement, Colour::Black, Kind::King, 1);
    let parts = Parts {
        placement,
        turn: Colour::White,
        rights: NO_RIGHTS,
        target: None,
        half_moves: chance.small(100),
        number: chance.small(99).saturating_add(1),
    };
    Lawful::of(Position::make(parts)?).ok()
}

/// Looks at random positions with many queens, and at those one move on.
fn crowded(
    alloc: Global,
    chance: &mut Chance,
    digest: &mut Digest,
    tries: u16,
) -> Result<(), AllocError> {
    for _ in 0..tries {
        if let Some(lawful) = with_queens(chance) {
            let here = look(alloc, digest, lawful)?;
            read_again(digest, &here);
            look_ahead(alloc, digest, &here, 0)?;
        }
    }
    Ok(())
}

/// Walks through a game from each of this many starts, and looks at a few positions with many queens.
pub fn run(
    alloc: Global,
    chance: &mut Chance,
    digest: &mut Digest,
    games: u16,
) -> Result<(), AllocError> {
    let first = chance.small(960);
    for number in 0..games.min(960) {
        if let Some(lawful) = start(first.saturating_add(number) % 960) {
            walk(alloc, chance, digest, lawful)?;
        }
    }
    crowded(alloc, chance, digest, games)
}
