//! How players or an arbiter end a game.

ghost use Rattle.std.specs.Prelude.{◌≡◌};
ghost use Rattle.c960_game.specs.Ending.{named_outcome};

use crate::outcome::Outcome;
use crate::result::Result;
use c960_board::Colour;

/// How players or an arbiter end a game. A player may resign when it is not that player's move, and a draw may be agreed at any moment. An
/// arbiter may report a loss on time, or decide, whoever has the move.
#[derive(Clone, Copy, PartialEq, Eq, Debug)]
pub enum Ending {
    /// This player resigns (FIDE Laws, Article 5.1.2).
    Resigns(Colour),
    /// The players agree on a draw (Article 5.2.3).
    Agreed,
    /// The game is given up without a result.
    Abandoned,
    /// This player claims a draw for the third appearance of the position (Article 9.2).
    ClaimThreefold(Colour),
    /// This player claims a draw for fifty moves of each side without a capture and a pawn move (Article 9.3).
    ClaimFifty(Colour),
    /// This player's time ran out (Article 6.9).
    LosesOnTime(Colour),
    /// An arbiter decided the game (Articles 6.7, 11.7 and 12.9). Also a draw where a player's time ran out and the opponent cannot
    /// mate by any series of legal moves (Article 6.9): the arbiter judges that.
    Decided(Result),
}

impl Ending {
    /// The outcome that the ending names.
    pub fn outcome(&self) -> Outcome
        ensures { result ≡ named_outcome self.now }
    {
        match self {
            Ending::Resigns(colour) => Outcome::Resigned(*colour),
            Ending::Agreed => Outcome::Agreed,
            Ending::Abandoned => Outcome::Abandoned,
            Ending::ClaimThreefold(_) => Outcome::Threefold,
            Ending::ClaimFifty(_) => Outcome::Fifty,
            Ending::LosesOnTime(colour) => Outcome::LostOnTime(*colour),
            Ending::Decided(result) => Outcome::Decided(*result),
        }
    }
}
