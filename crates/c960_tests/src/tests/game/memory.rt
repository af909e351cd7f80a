//! Lack of memory. If one allocation is refused (`rt try --test --fail-alloc N`, for each N in turn), `Game::open` says so and
//! succeeds when called again. No later call is ever refused memory, as the moves, ends and places here show.

use crate::tests::claims::{claim, claim_at};
use crate::tests::game::places::ends_before;
use crate::tests::game::playing::standard;
use crate::tests::game::rows::Row::{Appearances, End, Last, Play, Text};
use crate::tests::game::rows::{Row, assert_rows, play_lines};
use crate::tests::game::unclaimed::before_mate;
use c960_board::Colour;
use c960_game::{Ending, Game, Outcome};
use std::alloc::Global;
use std::process::Abort;

/// A new game from the standard array, opened again if it was refused memory.
fn open(rt: &impl Abort, alloc: Global, plies: u16) -> Game {
    match standard(rt, alloc, plies) {
        Ok(game) => game,
        Err(_) => standard(rt, alloc, plies).expect(rt, "one refusal at the most"),
    }
}

/// The end of a long game, by a mate.
static MATE: [Row; 1] = [Last("d8h4", Outcome::Checkmate(Colour::Black))];

/// The row of this end.
fn mate() -> &'static [Row] {
    &MATE
}

/// A game that ends by a claim.
static CLAIMED: [Row; 4] = [
    Play("g1f3 g8f6 f3g1 f6g8 g1f3 g8f6 f3g1 f6g8"),
    Appearances(3),
    End(Ending::ClaimThreefold(Colour::White), Outcome::Threefold),
    Text("rnbqkbnr/pppppppp/8/8/8/8/PPPPPPPP/RNBQKBNR w HAha - 8 5"),
];

/// The rows of this game.
fn claimed() -> &'static [Row] {
    &CLAIMED
}

/// Asserts that a long game that ends by a mate has a position at each place, the last of them for the first time.
fn assert_long_game(rt: &impl Abort, alloc: Global) {
    let mut game = open(rt, alloc, 154);
    play_lines(rt, &mut game, before_mate());
    assert_rows(rt, &mut game, mate());
    for place in 0..=154 {
        claim_at(rt, !ends_before(&game, place), "place", u64::from(place));
    }
    claim(rt, game.appearances() == 1, "one appearance");
}

/// Asserts that a game ends by a claim.
fn assert_claimed_game(rt: &impl Abort, alloc: Global) {
    let mut game = open(rt, alloc, 1024);
    assert_rows(rt, &mut game, claimed());
}

#[test]
fn no_call_after_the_opening_takes_memory(rt: HostRuntime) {
    assert_long_game(&rt, rt.alloc());
    assert_claimed_game(&rt, rt.alloc());
}
