//! The limits of a relay that a board needs.

ghost use Rattle.std.specs.Prelude.{◌≡◌};
ghost use Rattle.live_board.specs.Limits.{AreBoardLimits};

use c960_game::Limits;

/// The limits of one board: how many slots it has, how many moves a follower's queue holds, and how many plies its game
/// may have.
#[derive(Clone, Copy, PartialEq, Eq, Debug)]
pub struct BoardLimits {
    /// 1 to 1,024.
    pub followers: u64,
    /// 1 to 1,024.
    pub capacity: u64,
    /// 1 to 16,384.
    pub plies: u64,
}

impl BoardLimits {
    /// The limits of each board of a relay with these limits.
    pub fn of(limits: &Limits) -> BoardLimits
        ensures followers { result.followers ≡ limits.now.followers }
        ensures capacity { result.capacity ≡ limits.now.capacity }
        ensures plies { result.plies ≡ limits.now.plies }
        ensures within { AreBoardLimits result }
    {
        BoardLimits {
            followers: u64::from(limits.followers()),
            capacity: u64::from(limits.capacity()),
            plies: u64::from(limits.plies()),
        }
    }
}
