//! Games that an arbiter ends (FIDE Laws, Articles 6.7, 6.9, 11.7 and 12.9), and the result of each outcome.

use crate::tests::claims::claim;
use crate::tests::game::playing::{is_ending_refused, standard};
use crate::tests::game::rows::Row::{End, Last, NoEnd, NoMove, Play};
use crate::tests::game::rows::{Row, assert_game, assert_rows};
use c960_board::Colour;
use c960_game::Result::{BlackWins, Draw, WhiteWins};
use c960_game::{Ending, Outcome, Refusal};
use std::alloc::{AllocError, Global};
use std::process::Abort;

/// Each outcome, its text, and who has won (Articles 5.1, 5.2, 6.9, 9.2, 9.3 and 9.6).
static RESULTS: [(Outcome, &str, Option<c960_game::Result>); 16] = [
    (
        Outcome::Checkmate(Colour::White),
        "white mates",
        Some(WhiteWins),
    ),
    (
        Outcome::Checkmate(Colour::Black),
        "black mates",
        Some(BlackWins),
    ),
    (Outcome::Stalemate, "stalemate", Some(Draw)),
    (
        Outcome::Resigned(Colour::White),
        "white resigns",
        Some(BlackWins),
    ),
    (
        Outcome::Resigned(Colour::Black),
        "black resigns",
        Some(WhiteWins),
    ),
    (Outcome::Agreed, "agreed", Some(Draw)),
    (Outcome::Abandoned, "abandoned", None),
    (Outcome::Threefold, "threefold", Some(Draw)),
    (Outcome::Fifty, "fifty moves", Some(Draw)),
    (Outcome::Fivefold, "fivefold", Some(Draw)),
    (Outcome::SeventyFive, "seventy-five moves", Some(Draw)),
    (
        Outcome::LostOnTime(Colour::White),
        "white loses on time",
        Some(BlackWins),
    ),
    (
        Outcome::LostOnTime(Colour::Black),
        "black loses on time",
        Some(WhiteWins),
    ),
    (
        Outcome::Decided(WhiteWins),
        "white wins by decision",
        Some(WhiteWins),
    ),
    (
        Outcome::Decided(BlackWins),
        "black wins by decision",
        Some(BlackWins),
    ),
    (Outcome::Decided(Draw), "drawn by decision", Some(Draw)),
];

/// The outcomes, their texts and their results.
fn results() -> &'static [(Outcome, &'static str, Option<c960_game::Result>)] {
    &RESULTS
}

#[test]
fn each_outcome_but_an_abandoned_game_has_a_result(rt: HostRuntime) {
    for (outcome, text, result) in results() {
        claim(&rt, outcome.text() == *text, *text);
        claim(&rt, outcome.result() == *result, *text);
    }
}

/// What an arbiter may say, and the outcome.
static RULINGS: [(Ending, Outcome); 5] = [
    (
        Ending::LosesOnTime(Colour::White),
        Outcome::LostOnTime(Colour::White),
    ),
    (
        Ending::LosesOnTime(Colour::Black),
        Outcome::LostOnTime(Colour::Black),
    ),
    (Ending::Decided(WhiteWins), Outcome::Decided(WhiteWins)),
    (Ending::Decided(BlackWins), Outcome::Decided(BlackWins)),
    (Ending::Decided(Draw), Outcome::Decided(Draw)),
];

/// The rulings.
fn rulings() -> &'static [(Ending, Outcome)] {
    &RULINGS
}

#[test]
fn an_arbiter_may_end_a_game_whoever_is_on_move(rt: HostRuntime) -> Result<(), AllocError> {
    for (ending, outcome) in rulings() {
        let ended = End(*ending, *outcome);
        let begun = [
            ended,
            NoMove("e2e4", Refusal::GameOver),
            NoEnd(*ending, Refusal::GameOver),
        ];
        assert_game(&rt, rt.alloc(), 1, &begun)?;
        let full = [
            Play("e2e4"),
            ended,
            NoEnd(Ending::Agreed, Refusal::GameOver),
        ];
        assert_game(&rt, rt.alloc(), 1, &full)?;
    }
    Ok(())
}

/// A game that ends by a mate.
static MATED: [Row; 2] = [
    Play("f2f3 e7e5 g2g4"),
    Last("d8h4", Outcome::Checkmate(Colour::Black)),
];

/// The rows of this game.
fn mated() -> &'static [Row] {
    &MATED
}

/// A game that a player has resigned.
static RESIGNED: [Row; 1] = [End(
    Ending::Resigns(Colour::White),
    Outcome::Resigned(Colour::White),
)];

/// The row of this game.
fn resigned() -> &'static [Row] {
    &RESIGNED
}

/// Asserts that no ruling ends a game again that has ended by these rows.
fn assert_no_ruling(rt: &impl Abort, alloc: Global, rows: &[Row]) -> Result<(), AllocError> {
    let mut game = standard(rt, alloc, 1024)?;
    assert_rows(rt, &mut game, rows);
    for (ending, outcome) in rulings() {
        let is_refused = is_ending_refused(&mut game, *ending, Refusal::GameOver);
        claim(rt, is_refused, outcome.text());
    }
    Ok(())
}

#[test]
fn an_arbiter_does_not_end_a_game_again(rt: HostRuntime) -> Result<(), AllocError> {
    assert_no_ruling(&rt, rt.alloc(), mated())?;
    assert_no_ruling(&rt, rt.alloc(), resigned())
}
