//! What is told of boards, from the loop that plays them to the loops that show them.

use c960_board::Move;
use c960_game::Outcome;
use relay_core::BoardName;

/// What happened to a board. A board is known by its index, in the order of opening.
#[derive(Clone, Copy)]
pub enum BoardEvent {
    /// The next board was opened under this name, with this number of a start.
    Opened(BoardName, u16),
    /// A move was made on the board of this index.
    Played(u16, Move),
    /// The game of the board of this index has ended.
    Ended(u16, Outcome),
}

/// How far a game has come, or was told of.
#[derive(Clone, Copy, PartialEq, Eq)]
pub struct Progress {
    /// How many moves were made.
    pub moves: u16,
    /// Whether it has ended.
    pub is_over: bool,
}
