//! Who has won a game.

ghost use Rattle.std.specs.Prelude.{◌≡◌};
ghost use Rattle.c960_game.specs.Outcome.{won_by};

use c960_board::Colour;

/// Who has won a game, or that nobody has (FIDE Laws, Article 10.1).
#[derive(Clone, Copy, PartialEq, Eq, Debug)]
pub enum Result {
    /// White has won, `1-0`.
    WhiteWins,
    /// Black has won, `0-1`.
    BlackWins,
    /// The game is drawn, `1/2-1/2`.
    Draw,
}

impl Result {
    /// The result of a game that this side has won.
    pub fn won_by(winner: Colour) -> Result
        ensures { result ≡ won_by winner }
    {
        match winner {
            Colour::White => Result::WhiteWins,
            Colour::Black => Result::BlackWins,
        }
    }
}
