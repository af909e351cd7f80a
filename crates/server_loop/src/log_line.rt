//! What is reported on standard error.

use c960_game::Outcome;
use relay_core::BoardName;
use std::fmt;

/// A line on standard error.
#[derive(Clone, Copy)]
pub enum LogLine {
    /// A board was opened.
    Opened(BoardName),
    /// Its game ended with this outcome.
    Ended(BoardName, Outcome),
    /// Nobody with its key is connected, and it waits.
    Waits(BoardName),
    /// Somebody with its key has come back.
    IsBack(BoardName),
    /// A follower of it was cut off.
    Cut(BoardName),
    /// The last connection has come, of so many. It is reported although there is no log, since the system gives no reason when it refuses
    /// others.
    TheLast(u32),
    /// A connection was turned away. It is reported although there is no log.
    NoRoom,
}

impl LogLine {
    /// Whether it is written only if there is a log.
    pub(crate) fn is_of_log(&self) -> bool {
        !matches!(self, LogLine::TheLast(_) | LogLine::NoRoom)
    }
}

impl fmt::Display for LogLine {
    fn fmt<W: fmt::Write>(&self, f: &mut fmt::Formatter<W>) -> fmt::Result {
        match self {
            LogLine::Opened(board) => write!(f, "board {board} opened"),
            LogLine::Ended(board, outcome) => write!(f, "board {board} ended: {}", outcome.text()),
            LogLine::Waits(board) => write!(f, "board {board} waits for its operator"),
            LogLine::IsBack(board) => write!(f, "board {board} has its operator back"),
            LogLine::Cut(board) => write!(f, "board {board} has cut a follower off"),
            LogLine::TheLast(most) => write!(
                f,
                "the last connection has come, {most} of {most}: no more are accepted without --forever"
            ),
            LogLine::NoRoom => write!(f, "no descriptor or memory for a connection: turned away"),
        }
    }
}
