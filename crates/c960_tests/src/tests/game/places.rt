//! The position at an earlier place of a game.

use crate::tests::claims::{claim, claim_at, claim_of};
use crate::tests::game::playing::{ends_by, goes_on, standard};
use crate::tests::game::rows::play_on;
use crate::tests::game::unclaimed::before_mate;
use c960_board::{Colour, Position, write_fen};
use c960_game::{Game, Outcome};
use std::alloc::{AllocError, Global};
use std::process::Abort;

/// Whether the position at a place is written as that text.
fn is_written_at(game: &Game, place: u16, text: &str) -> bool {
    match game.position_at(place) {
        Some(position) => write_fen(&position).as_slice() == text.as_bytes(),
        None => false,
    }
}

/// Whether the position at a place is the present one.
fn is_present_at(game: &Game, place: u16) -> bool {
    game.position_at(place) == Some(game.position())
}

/// Whether a game has no such place.
pub fn ends_before(game: &Game, place: u16) -> bool {
    game.position_at(place).is_none()
}

/// Positions of the long game that ends in mate, by the same program as its moves.
static PLACES: [(u16, &str); 8] = [
    (
        0,
        "rnbqkbnr/pppppppp/8/8/8/8/PPPPPPPP/RNBQKBNR w HAha - 0 1",
    ),
    (
        1,
        "rnbqkbnr/pppppppp/8/8/8/5P2/PPPPP1PP/RNBQKBNR b HAha - 0 1",
    ),
    (
        63,
        "r1bqkbnr/pppp1ppp/8/n3p3/N5P1/5P2/PPPPP2P/R1BQKBNR b Hh - 59 32",
    ),
    (
        64,
        "1rbqkbnr/pppp1ppp/8/n3p3/N5P1/5P2/PPPPP2P/R1BQKBNR w Hh - 60 33",
    ),
    (
        65,
        "1rbqkbnr/pppp1ppp/8/n3p3/6P1/2N2P2/PPPPP2P/R1BQKBNR b Hh - 61 33",
    ),
    (
        128,
        "r1bqkbnr/pppp1ppp/2n5/4p3/2N3P1/5P2/PPPPP2P/R1BQKBNR w Hh - 124 65",
    ),
    (
        153,
        "1rbqkbnr/pppp1ppp/8/n3p3/2N3P1/5P2/PPPPP2P/1RBQKBNR b Hh - 149 77",
    ),
    (
        154,
        "1rb1kbnr/pppp1ppp/8/n3p3/2N3Pq/5P2/PPPPP2P/1RBQKBNR w Hh - 150 78",
    ),
];

/// The places and their positions.
fn places() -> &'static [(u16, &'static str)] {
    &PLACES
}

/// Whether the move of a text is accepted, and the position after it is at the end of the log.
fn shows(game: &mut Game, text: &str) -> bool {
    goes_on(game, text) && is_present_at(game, game.len())
}

/// Makes the moves of a line, and adds the position after each.
fn see(
    rt: &impl Abort,
    game: &mut Game,
    line: &str,
    seen: &mut Vec<Position>,
) -> Result<(), AllocError> {
    for text in line.split(' ') {
        claim_of(rt, shows(game, text), "the move", text);
        seen.push(game.position())?;
    }
    Ok(())
}

/// Makes the moves up to the mate. Returns all positions.
fn seen_in(rt: &impl Abort, alloc: Global, game: &mut Game) -> Result<Vec<Position>, AllocError> {
    let mut seen = Vec::new(alloc);
    seen.push(game.position())?;
    for line in before_mate() {
        see(rt, game, line, &mut seen)?;
    }
    claim(rt, game.len() == 153, "153 moves");
    let is_mate = ends_by(game, "d8h4", Outcome::Checkmate(Colour::Black));
    claim(rt, is_mate, "a mate");
    seen.push(game.position())?;
    Ok(seen)
}

/// Whether the places of a game have these positions, from the first on.
fn has_positions(game: &Game, seen: &[Position]) -> bool {
    let mut place = 0u16;
    for position in seen {
        if game.position_at(place) != Some(*position) {
            return false;
        }
        place = place.saturating_add(1);
    }
    true
}

/// Asserts the positions of the table, and that there is none past the last.
fn assert_places(rt: &impl Abort, game: &Game) {
    for (place, text) in places() {
        let is_so = is_written_at(game, *place, *text);
        claim_at(rt, is_so, "place", u64::from(*place));
    }
    for past in [155, 156, 192, 16384, 65535] {
        claim_at(rt, ends_before(game, past), "no place", u64::from(past));
    }
}

#[test]
fn each_place_has_the_position_seen_there(rt: HostRuntime) -> Result<(), AllocError> {
    let mut game = standard(&rt, rt.alloc(), 154)?;
    let seen = seen_in(&rt, rt.alloc(), &mut game)?;
    claim(&rt, seen.len() == 155, "155 positions");
    claim(&rt, has_positions(&game, seen.as_slice()), "each of them");
    assert_places(&rt, &game);
    Ok(())
}

/// Makes the moves of a line while there are fewer than so many.
fn play_up_to(rt: &impl Abort, game: &mut Game, line: &str, plies: u16) {
    for text in line.split(' ') {
        if game.len() < plies {
            claim_of(rt, goes_on(game, text), "the move", text);
        }
    }
}

/// Asserts that a log of so many moves is full, with its last position and none behind.
fn assert_full(rt: &impl Abort, alloc: Global, plies: u16) -> Result<(), AllocError> {
    let mut game = standard(rt, alloc, plies)?;
    for line in before_mate() {
        play_up_to(rt, &mut game, line, plies);
    }
    let number = u64::from(plies);
    claim_at(rt, game.len() == plies, "moves:", number);
    claim_at(rt, is_present_at(&game, plies), "at", number);
    let is_last = ends_before(&game, plies.saturating_add(1));
    claim_at(rt, is_last, "behind", number);
    Ok(())
}

#[test]
fn a_full_log_of_sixty_four_moves_has_its_positions(rt: HostRuntime) -> Result<(), AllocError> {
    for plies in [31, 32, 33, 63, 64, 65] {
        assert_full(&rt, rt.alloc(), plies)?;
    }
    Ok(())
}

/// The start of a game without a move, which has no other place.
fn start(rt: &impl Abort, alloc: Global) -> Result<Position, AllocError> {
    let game = standard(rt, alloc, 1)?;
    claim(rt, is_present_at(&game, 0), "the start");
    claim(rt, ends_before(&game, 1), "no place behind");
    Ok(game.position())
}

#[test]
fn a_game_without_a_move_has_its_start_alone(rt: HostRuntime) -> Result<(), AllocError> {
    let start = start(&rt, rt.alloc())?;
    let mut one = standard(&rt, rt.alloc(), 1)?;
    play_on(&rt, &mut one, "e2e4");
    let both = has_positions(&one, &[start, one.position()]);
    claim(&rt, both, "two places");
    claim(&rt, ends_before(&one, 2), "no third");
    Ok(())
}
