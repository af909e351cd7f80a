//! How a game has ended.

ghost use Rattle.std.specs.Prelude.{◌≡◌, ◌≤◌, ◌↔◌, Some, IsSome, IfSome};
ghost use Rattle.c960_game.specs.Outcome.{outcome_code, outcome_result, outcome_text};

use crate::result::Result;
use c960_board::Colour;

/// How a game has ended. Each outcome has a number, 1 to 16 (`code`), a text (`text`), and all but `Abandoned` a result (`result`).
#[derive(Clone, Copy, PartialEq, Eq, Debug)]
pub enum Outcome {
    /// This side has mated the other (FIDE Laws, Article 5.1.1).
    Checkmate(Colour),
    /// The side to move has no legal move and is not in check (Article 5.2.1).
    Stalemate,
    /// This player has resigned (Article 5.1.2).
    Resigned(Colour),
    /// The players have agreed on a draw (Article 5.2.3).
    Agreed,
    /// The game was given up without a result.
    Abandoned,
    /// A draw was claimed for a third appearance of the position (Article 9.2).
    Threefold,
    /// A draw was claimed for fifty moves of each side without a capture and a pawn move (Article 9.3).
    Fifty,
    /// The position has appeared five times (Article 9.6.1).
    Fivefold,
    /// Seventy-five moves of each side had no capture and no pawn move (Article 9.6.2).
    SeventyFive,
    /// This player's time ran out (Article 6.9).
    LostOnTime(Colour),
    /// An arbiter decided the game (Articles 6.7, 11.7 and 12.9).
    Decided(Result),
}

impl Outcome {
    /// The number of the outcome, 1 to 16: two each for `Checkmate`, `Resigned` and `LostOnTime`, White's first, and three for `Decided`.
    pub fn code(&self) -> u64
        ensures { result ≡ outcome_code self.now }
    {
        match self {
            Outcome::Checkmate(Colour::White) => 1,
            Outcome::Checkmate(Colour::Black) => 2,
            Outcome::Stalemate => 3,
            Outcome::Resigned(Colour::White) => 4,
            Outcome::Resigned(Colour::Black) => 5,
            Outcome::Agreed => 6,
            Outcome::Abandoned => 7,
            Outcome::Threefold => 8,
            Outcome::Fifty => 9,
            Outcome::Fivefold => 10,
            Outcome::SeventyFive => 11,
            Outcome::LostOnTime(Colour::White) => 12,
            Outcome::LostOnTime(Colour::Black) => 13,
            Outcome::Decided(Result::WhiteWins) => 14,
            Outcome::Decided(Result::BlackWins) => 15,
            Outcome::Decided(Result::Draw) => 16,
        }
    }

    /// The outcome with that number, or None exactly for 0 and from 17 on.
    #[tactic(auto, using(crate::proofs::OutcomeFacts::only_outcome))]
    pub fn of_code(code: u64) -> Option<Outcome>
        ensures some { IsSome result ↔ ((1 ≤ code) × (code ≤ 16)) }
        ensures value { IfSome result (λ outcome. outcome_code outcome ≡ code) }
        ensures only { (outcome : Outcome) → outcome_code outcome ≡ code → result ≡ Some outcome }
    {
        match code {
            1 => Some(Outcome::Checkmate(Colour::White)),
            2 => Some(Outcome::Checkmate(Colour::Black)),
            3 => Some(Outcome::Stalemate),
            4 => Some(Outcome::Resigned(Colour::White)),
            5 => Some(Outcome::Resigned(Colour::Black)),
            6 => Some(Outcome::Agreed),
            7 => Some(Outcome::Abandoned),
            8 => Some(Outcome::Threefold),
            9 => Some(Outcome::Fifty),
            10 => Some(Outcome::Fivefold),
            11 => Some(Outcome::SeventyFive),
            12 => Some(Outcome::LostOnTime(Colour::White)),
            13 => Some(Outcome::LostOnTime(Colour::Black)),
            14 => Some(Outcome::Decided(Result::WhiteWins)),
            15 => Some(Outcome::Decided(Result::BlackWins)),
            16 => Some(Outcome::Decided(Result::Draw)),
            _ => None,
        }
    }

    /// The outcome in words: `white mates`, `stalemate`, `black resigns` and the like.
    pub fn text(&self) -> &'static str
        ensures { result.now ≡ outcome_text self.now }
    {
        match self {
            Outcome::Checkmate(Colour::White) => "white mates",
            Outcome::Checkmate(Colour::Black) => "black mates",
            Outcome::Stalemate => "stalemate",
            Outcome::Resigned(Colour::White) => "white resigns",
            Outcome::Resigned(Colour::Black) => "black resigns",
            Outcome::Agreed => "agreed",
            Outcome::Abandoned => "abandoned",
            Outcome::Threefold => "threefold",
            Outcome::Fifty => "fifty moves",
            Outcome::Fivefold => "fivefold",
            Outcome::SeventyFive => "seventy-five moves",
            Outcome::LostOnTime(Colour::White) => "white loses on time",
            Outcome::LostOnTime(Colour::Black) => "black loses on time",
            Outcome::Decided(Result::WhiteWins) => "white wins by decision",
            Outcome::Decided(Result::BlackWins) => "black wins by decision",
            Outcome::Decided(Result::Draw) => "drawn by decision",
        }
    }

    /// The result, or None exactly for a game that was given up.
    pub fn result(&self) -> Option<Result>
        ensures { result ≡ outcome_result self.now }
    {
        match self {
            Outcome::Checkmate(winner) => Some(Result::won_by(*winner)),
            Outcome::Resigned(loser) | Outcome::LostOnTime(loser) => {
                Some(Result::won_by(loser.other()))
            }
            Outcome::Decided(decided) => Some(*decided),
            Outcome::Abandoned => None,
            Outcome::Stalemate
            | Outcome::Agreed
            | Outcome::Threefold
            | Outcome::Fifty
            | Outcome::Fivefold
            | Outcome::SeventyFive => Some(Result::Draw),
        }
    }
}
