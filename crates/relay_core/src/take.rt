//! The rule of a take. It uses only places of the log, so that a relay on one thread and the followers of a live board share it.

ghost use Rattle.std.specs.Prelude.{◌≡◌};
ghost use Rattle.relay_core.specs.Takes.{without_move};

use crate::reply::Taken;
use c960_game::Outcome;

/// What a take answers without a move; None if it takes the move at the place `next` of the log. It depends on the length
/// at which the follower was closed, if it was, on the log's length, and on the outcome, if the game is over.
#[inline(always)]
pub fn without_move(
    closing: Option<u64>,
    next: u64,
    len: u64,
    outcome: Option<Outcome>,
) -> Option<Taken>
    ensures { result ≡ without_move closing next len outcome }
{
    if closing == Some(next) {
        return Some(Taken::Cut);
    }
    if next < len {
        return None;
    }
    Some(match outcome {
        Some(outcome) => Taken::Over(outcome),
        None => Taken::Nothing,
    })
}
