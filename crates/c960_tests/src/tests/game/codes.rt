//! The numbers of outcomes.

use crate::tests::claims::claim_at;
use c960_board::Colour;
use c960_game::{Outcome, Result};

/// The outcomes by their numbers, from 1 on.
static OUTCOMES: [Outcome; 16] = [
    Outcome::Checkmate(Colour::White),
    Outcome::Checkmate(Colour::Black),
    Outcome::Stalemate,
    Outcome::Resigned(Colour::White),
    Outcome::Resigned(Colour::Black),
    Outcome::Agreed,
    Outcome::Abandoned,
    Outcome::Threefold,
    Outcome::Fifty,
    Outcome::Fivefold,
    Outcome::SeventyFive,
    Outcome::LostOnTime(Colour::White),
    Outcome::LostOnTime(Colour::Black),
    Outcome::Decided(Result::WhiteWins),
    Outcome::Decided(Result::BlackWins),
    Outcome::Decided(Result::Draw),
];

/// The outcomes.
fn outcomes() -> &'static [Outcome] {
    &OUTCOMES
}

/// Whether a number and an outcome correspond.
fn is_numbered(outcome: Outcome, code: u64) -> bool {
    outcome.code() == code && Outcome::of_code(code) == Some(outcome)
}

#[test]
fn each_number_from_1_to_16_is_of_an_outcome(rt: HostRuntime) {
    for (outcome, code) in outcomes().iter().zip(1..) {
        claim_at(&rt, is_numbered(*outcome, code), "number", code);
    }
    for other in [0, 17, 18, 65536, u64::MAX] {
        let is_none = Outcome::of_code(other).is_none();
        claim_at(&rt, is_none, "no outcome has number", other);
    }
}
