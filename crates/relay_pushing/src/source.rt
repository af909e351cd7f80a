//! Sources, from which a follower's moves are taken.

use relay_core::Taken;

/// Where the moves of a follower come from.
pub trait Source {
    ghost use Rattle.relay_core.specs.declared.reply.Taken.{Taken};

    /// In this state a take may give this answer, which leads to that state.
    ghost gives: { Self → Taken → Self → Type 0 };

    /// Takes what is next.
    fn take(&mut self) -> Taken
        ensures { gives self.old result self.new };
}
