//! The order in which spectators joined, as clauses see it.

ghost use Rattle.std.specs.Prelude.{◌≡◌, ℕ, List, nat_eq, [], ◌∷◌, ◌++◌};
ghost use Rattle.std.specs.Borrow.{ftrue};
ghost use Rattle.std.specs.Set.{remove_key};

use crate::step::Spectator;
use std::marker::Model;

/// Spectators in the order of joining, beside a map that has them in any order. Only clauses read it: it takes no memory, and nothing is
/// done with it at run time. A relay keeps one for the record that its contracts show; a program has no use for it.
#[derive(Drop)]
pub struct JoiningOrder {
    /// The spectators, the first one to join first.
    pub ghost spectators: { List ℕ },
}

impl Model for JoiningOrder {
    // There is no memory that it could own.
    ghost also_owns = { λ _. ftrue };
}

// It owns nothing, so other threads may have it and share it: a relay may go to another thread, and be read by several. A struct with
// `also_owns` has neither by itself.
unsafe impl Send for JoiningOrder {}

unsafe impl Sync for JoiningOrder {}

impl JoiningOrder {
    /// Nobody has joined.
    pub fn new() -> JoiningOrder
        ensures { result.spectators ≡ [] }
    {
        JoiningOrder {}
    }

    /// A spectator has joined: it comes last.
    pub fn joined(&self, _who: &Spectator) -> JoiningOrder
        ensures { result.spectators ≡ self.now.spectators ++ _who.now ∷ [] }
    {
        JoiningOrder {}
    }

    /// A spectator has left: those behind it follow those before it.
    pub fn left(&self, _who: &Spectator) -> JoiningOrder
        ensures { result.spectators ≡ remove_key (nat_eq _who.now) self.now.spectators }
    {
        JoiningOrder {}
    }
}
