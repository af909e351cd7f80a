//! What is asked of a relay.

use crate::name::BoardName;
use c960_board::Move;
use c960_game::Ending;

/// The number of a spectator, chosen by whoever follows.
pub type Spectator = u32;

/// One step.
#[derive(Clone, Copy, PartialEq, Eq, Debug)]
pub enum Step {
    /// Opens a board with the game of this start number.
    Open(BoardName, u16),
    /// Plays a move on a board.
    Submit(BoardName, Move),
    /// Ends the game of a board.
    End(BoardName, Ending),
    /// Makes a spectator follow a board from this place of the log on; without a place, from the log's present length on.
    Follow(Spectator, BoardName, Option<u16>),
    /// Takes the spectator's next move.
    Take(Spectator),
    /// Ends the spectator's following.
    Leave(Spectator),
}
