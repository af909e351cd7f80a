//! Keepers of boards, which connections ask.

ghost use Rattle.std.specs.Prelude.{ℕ, List, Bool};

use relay_core::{BoardName, Reply, Step};

/// What makes the steps that a connection may make. It states by relations what it may answer, so that a keeper whose boards others
/// change too also fits.
pub trait Keeper {
    ghost use Rattle.relay_core.specs.declared.step.Step.{Step};
    ghost use Rattle.relay_core.specs.declared.reply.Reply.{Reply};
    ghost use Rattle.relay_pushing.specs.Connections.{Question, Knows, Owns, OwnsAny};

    /// In this state it may give this answer to this question.
    ghost tells: { Self → Question → Bool → Type 0 };

    /// In this state it may make the step with this reply, which leads to that state.
    ghost makes: { Self → Step → Reply → Self → Type 0 };

    /// Whether a board of this name was opened.
    fn knows(&self, board: &BoardName) -> bool
        ensures { tells self.now (Knows board.now) result };

    /// Whether the board belongs to the connection, even if another one opened it.
    fn owns(&self, board: &BoardName) -> bool
        ensures { tells self.now (Owns board.now) result };

    /// Whether any board belongs to the connection, even if another one opened it.
    fn owns_any(&self) -> bool
        ensures { tells self.now OwnsAny result };

    /// Makes one step.
    fn step(&mut self, step: Step) -> Reply
        ensures { makes self.old step result self.new };
}
