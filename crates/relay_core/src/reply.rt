//! What a relay answers.

use c960_board::{Move, Position};
use c960_game::{Outcome, Refusal};

/// What a take answers.
#[derive(Clone, Copy, PartialEq, Eq, Debug)]
pub enum Taken {
    /// The next move, with its place in the log, from 0.
    Move(u16, Move),
    /// There is no further move yet.
    Nothing,
    /// There is none and never will be: the game has ended.
    Over(Outcome),
    /// There is none, since the follower was closed when its queue was full.
    Cut,
}

/// What a follower has had, reported when it leaves.
#[derive(Clone, Copy, PartialEq, Eq, Debug)]
pub struct Account {
    /// The place of the log at which it joined.
    pub joined: u16,
    /// How many moves it has taken.
    pub taken: u16,
    /// The log's length at which it was closed, or else the log's length at the leave.
    pub limit: u16,
    /// Whether it was closed.
    pub cut: bool,
}

/// The reply to a step.
#[derive(Clone, Copy, PartialEq, Eq, Debug)]
pub enum Reply {
    /// The board was opened.
    Opened,
    /// The move was played at this place of the log. It ended the game if there is an outcome.
    Played {
        place: u16,
        outcome: Option<Outcome>,
    },
    /// The game was ended.
    Ended(Outcome),
    /// The spectator now follows from this place of the log on. With it comes the game's position there.
    Following {
        joined: u16,
        position: Position,
    },
    /// What the take found.
    Took(Taken),
    /// The spectator no longer follows.
    Left(Account),
    /// The step was refused, and changed nothing.
    Refused(Refusal),
}
