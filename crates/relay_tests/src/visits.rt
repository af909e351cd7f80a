//! A small example of a caller: the history at which a relay of either kind stands after two steps.

ghost use Rattle.std.specs.Prelude.{◌∷◌, None};
ghost use Rattle.c960_game.specs.Limits.{LimitNumbers};
ghost use Rattle.relay_core.specs.History.{History};
ghost use Rattle.relay_core.specs.Stands.{Stands};

use relay_core::{BoardName, Reply, Spectator, Step, Stepper};

/// Makes a spectator follow a board and leave again, and returns both replies.
pub fn visit<S: Stepper>(relay: &mut S, who: Spectator, board: BoardName) -> (Reply, Reply)
    ensures { (limits : LimitNumbers) (h : History) → Stands limits (S.record_of relay.old) h
        → Stands limits (S.record_of relay.new) ((Step.Leave who, result.1) ∷ (Step.Follow who board None, result.0) ∷ h) }
{
    let following = relay.step(Step::Follow(who, board, None));
    let left = relay.step(Step::Leave(who));
    (following, left)
}
