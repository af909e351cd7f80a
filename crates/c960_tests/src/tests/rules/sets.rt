//! Sets of squares, and the rules built on them, against plain scans of the board.

use crate::tests::claims::{claim, claim_at};
use crate::tests::rules::plain;
use crate::tests::rules::reading::{played, position_of, standard, start};
use crate::tests::rules::reference::legal_by;
use c960_board::{Colour, Kind, Move, Parts, Piece, Position, Square};
use c960_rules::{Lawful, any_legal, attacked, attackers, ep_legal, in_check, legal_moves};
use std::alloc::{AllocError, Global};

/// The standard start: all pieces, the white pawns, and the attackers of f3 (the pawns on e2 and g2, the knight on g1).
#[test]
fn the_sets_of_the_standard_start(rt: HostRuntime) {
    let position = standard(&rt).position();
    let pawn = Piece {
        colour: Colour::White,
        kind: Kind::Pawn,
    };
    let f3 = Square::new(21).expect(&rt, "a square");
    let occupied = position.occupied();
    claim(&rt, occupied == 18446462598732906495, "all pieces");
    claim(&rt, position.pieces(pawn) == 65280, "White's pawns");
    let found = attackers(&position, Colour::White, f3);
    claim(&rt, found == 20544, "the attackers of f3");
}

/// Whether the attackers of a square are those found by a scan.
fn are_attackers(position: &Position, parts: &Parts, by: Colour, square: Square) -> bool {
    let found = plain::attackers(&parts.placement, by, square.number());
    attackers(position, by, square) == found && attacked(position, by, square) == (found != 0)
}

/// Whether a square is in the sets of its contents.
fn is_in_sets(position: &Position, parts: &Parts, square: Square) -> bool {
    let number = square.number();
    let cell = position.piece_at(square);
    let is_occupied = (position.occupied() >> number) & 1 == 1;
    let is_in_set = match cell {
        Some(piece) => (position.pieces(piece) >> number) & 1 == 1,
        None => true,
    };
    cell == parts.placement[number as usize] && is_occupied == cell.is_some() && is_in_set
}

/// Whether a square is in the sets of its contents, and its attackers are those found by a scan.
fn is_as_scanned(position: &Position, parts: &Parts, square: Square) -> bool {
    is_in_sets(position, parts, square)
        && are_attackers(position, parts, Colour::White, square)
        && are_attackers(position, parts, Colour::Black, square)
}

/// Whether the sets of a position and the attackers of each square are those found by a scan.
fn are_squares(position: &Position, parts: &Parts) -> bool {
    for number in 0..64u8 {
        match Square::new(number) {
            Some(square) if is_as_scanned(position, parts, square) => {}
            _ => return false,
        }
    }
    true
}

/// Whether a side's check is as found by a scan.
fn is_check(position: &Position, parts: &Parts, colour: Colour) -> bool {
    in_check(position, colour) == plain::in_check(&parts.placement, colour)
}

/// Whether a legal move leads to the placement found by a scan.
fn is_after(lawful: &Lawful, parts: &Parts, m: Move) -> bool {
    match played(lawful, m) {
        Some(next) => next.position().parts().placement == plain::placement_after(parts, &m),
        None => false,
    }
}

/// The target, if one of the moves takes on it en passant.
fn target_of(parts: &Parts, moves: &[Move]) -> Option<Square> {
    for m in moves {
        if plain::is_en_passant(parts, m) {
            return parts.target;
        }
    }
    None
}

/// Whether each of these moves leads to the placement found by a scan.
fn are_after(lawful: &Lawful, parts: &Parts, moves: &[Move]) -> bool {
    for m in moves {
        if !is_after(lawful, parts, *m) {
            return false;
        }
    }
    true
}

/// Whether the list of legal moves is that of a scan, and each leads to the placement found by a scan.
fn is_list(
    alloc: Global,
    lawful: &Lawful,
    parts: &Parts,
    moves: &[Move],
) -> Result<bool, AllocError> {
    let found = legal_by(alloc, |m| plain::is_legal(parts, &m))?;
    let found = found.as_slice();
    Ok(
        moves == found
            && any_legal(lawful) == !found.is_empty()
            && ep_legal(lawful) == target_of(parts, found)
            && are_after(lawful, parts, found),
    )
}

/// Whether the rules agree with plain scans at a position with these legal moves.
fn is_plain(alloc: Global, lawful: &Lawful, moves: &[Move]) -> Result<bool, AllocError> {
    let position = lawful.position();
    let parts = position.parts();
    let is_so = are_squares(&position, &parts)
        && is_check(&position, &parts, Colour::White)
        && is_check(&position, &parts, Colour::Black);
    Ok(is_so && is_list(alloc, lawful, &parts, moves)?)
}

/// The next number of a fixed sequence that looks random (xorshift).
fn next_number(number: u64) -> u64 {
    let one = number ^ (number << 13);
    let two = one ^ (one >> 7);
    two ^ (two << 17)
}

/// Whether the rules agree with plain scans at each position while this many moves are played at random, or fewer if the game ends.
fn is_plain_walk(alloc: Global, first: Lawful, seed: u64, plies: u16) -> Result<bool, AllocError> {
    let mut lawful = first;
    let mut number = seed;
    for _ in 0..plies {
        let moves = legal_moves(alloc, &lawful)?;
        if !is_plain(alloc, &lawful, moves.as_slice())? {
            return Ok(false);
        }
        if moves.is_empty() {
            return Ok(true);
        }
        number = next_number(number);
        let place = number % (moves.len() as u64);
        let Some(m) = moves.get(place as usize) else {
            return Ok(false);
        };
        let Some(next) = played(&lawful, *m) else {
            return Ok(false);
        };
        lawful = next;
    }
    Ok(true)
}

/// Whether this holds from the starting position with a number.
fn is_plain_start(alloc: Global, number: u16, seed: u64, plies: u16) -> Result<bool, AllocError> {
    match start(number) {
        Some(first) => is_plain_walk(alloc, first, seed, plies),
        None => Ok(false),
    }
}

#[test]
fn all_starts_agree_with_plain_scans(rt: HostRuntime) {
    for number in 0..960 {
        let is_so = is_plain_start(rt.alloc(), number, u64::from(number) + 1, 3);
        claim_at(&rt, is_so == Ok(true), "start", u64::from(number));
    }
}

#[test]
fn games_by_chance_agree_with_plain_scans(rt: HostRuntime) {
    for number in 0..24 {
        let is_so = is_plain_start(rt.alloc(), 40 * number + 7, 77, 120);
        claim_at(&rt, is_so == Ok(true), "game", u64::from(number));
    }
}

/// Pawns that are about to be promoted, and pieces to be taken.
#[test]
fn promotions_by_chance_agree_with_plain_scans(rt: HostRuntime) {
    let texts = [
        "n1n5/PPPk4/8/8/8/8/4Kppp/5N1N b - - 0 1",
        "r3k2r/Pppp1ppp/1b3nbN/nP6/BBP1P3/q4N2/Pp1P2PP/R2Q1RK1 w ha - 0 1",
    ];
    for text in texts {
        for seed in 1..9u64 {
            let is_so = is_plain_walk(rt.alloc(), position_of(&rt, text), seed, 30);
            claim_at(&rt, is_so == Ok(true), text, seed);
        }
    }
}
