//! How far a connection that follows has come.

ghost use Rattle.std.specs.Prelude.{◌≡◌};
ghost use Rattle.relay_service.specs.Following.Record.{follows};

use c960_game::Outcome;

/// How far a connection that follows a board has come.
#[derive(Clone, Copy)]
pub enum Stage {
    /// It follows its board and is sent its moves.
    Follows,
    /// It was told behind all moves that the game ended in this way, and then closed.
    Over(Outcome),
    /// It was told behind the last move that it gets that it was cut off, since its queue was full, and then closed.
    Cut,
    /// It closed, broke the protocol, was closed, or went.
    Left,
    /// There was no memory to put a move that its follower had taken.
    Failed,
}

impl Stage {
    /// Whether it still follows.
    pub(crate) fn follows(self) -> bool
        ensures { result ≡ follows self }
    {
        matches!(self, Stage::Follows)
    }
}
