//! All that was done to a service, as clauses see it.

ghost use Rattle.std.specs.Prelude.{◌≡◌, List, [], ◌∷◌, ◌++◌};
ghost use Rattle.std.specs.Borrow.{ftrue};
ghost use Rattle.relay_hall.specs.Restart.{IsRestart};
ghost use Rattle.relay_service.specs.Calling.Connections.{Turn};
ghost use Rattle.relay_service.specs.Noting.{turn_of};
ghost use Rattle.relay_service.specs.Resumed.{AreOfRestart};

use crate::turn::NewTurn;
use c960_game::Limits;
use relay_hall::Hall;
use std::marker::Model;

/// Turns, one after another. Only clauses read them: they take no memory, and nothing is done with them at run time.
#[derive(Drop)]
pub(crate) struct Turns {
    /// The turns, the first one first.
    pub ghost items: { List Turn },
}

impl Model for Turns {
    // There is no memory that it could own.
    ghost also_owns = { λ _. ftrue };
}

impl Turns {
    /// No turns.
    pub(crate) fn new() -> Turns
        ensures { result.items ≡ [] }
    {
        Turns {}
    }

    /// Turns by which this hall was made again before any connection came.
    pub(crate) fn of_restart(_limits: &Limits, _grace: &u64, _next: &u64, _hall: &Hall) -> Turns
        requires restart { IsRestart _limits.now _grace.now _next.now _hall.now }
        ensures { AreOfRestart _limits.now _grace.now _next.now _hall.now result.items }
    {
        Turns {}
    }

    /// These turns, and then this one.
    pub(crate) fn and(&self, _turn: &NewTurn) -> Turns
        ensures { result.items ≡ self.now.items ++ turn_of _turn.now ∷ [] }
    {
        Turns {}
    }
}
