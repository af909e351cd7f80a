//! Usual objects: those with the keys of a command that comes often, each once. What each member is follows from the variant.

/// A usual object.
#[derive(Clone, Copy, Drop)]
pub enum Usual<'a> {
    /// `cmd` and `spectator`, as to take or to leave.
    Spectator {
        /// The name of the command.
        cmd: &'a str,
        /// The number of the spectator.
        spectator: u64,
    },
    /// `cmd`, `board` and `move`, as to submit.
    Move {
        /// The name of the command.
        cmd: &'a str,
        /// The name of the board.
        board: &'a str,
        /// The text of the move.
        m: &'a str,
    },
    /// `cmd`, `board` and `spectator`, as to follow from the log's present length.
    Follow {
        /// The name of the command.
        cmd: &'a str,
        /// The name of the board.
        board: &'a str,
        /// The number of the spectator.
        spectator: u64,
    },
    /// `cmd`, `board`, `spectator` and `from`, as to follow from a place.
    FollowFrom {
        /// The name of the command.
        cmd: &'a str,
        /// The name of the board.
        board: &'a str,
        /// The number of the spectator.
        spectator: u64,
        /// The place.
        from: u64,
    },
}
