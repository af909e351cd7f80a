//! How far a connection of a service has come.

/// What a connection does.
#[derive(Clone, Copy, Debug, PartialEq, Eq)]
pub enum Stage {
    /// Its request has yet to come, or some of it.
    Comes,
    /// It asks, and is answered by the hall.
    Asks,
    /// It follows a board and is sent its moves.
    Follows,
    /// It says no more, and is sent what is due. If it followed it has left its board.
    Leaves,
}
