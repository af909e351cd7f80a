//! What a board is opened with.

use crate::BoardLimits;

/// The number of a board's start and its limits. The rule of its table is given them once, and each view has them.
#[derive(Clone, Copy, PartialEq, Eq, Debug)]
pub struct BoardSetup {
    /// 0 to 959.
    pub start: u64,
    /// How many followers, how many moves to a queue, and how many plies it may have.
    pub limits: BoardLimits,
}
