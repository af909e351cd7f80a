//! The keeper of a session, which asks the registry.

ghost use Rattle.std.specs.Prelude.{◌≡◌, None};

use crate::board_bell::BoardBell;
use crate::registry::Registry;
use relay_core::{BoardName, Reply, Step};
use relay_hall::{Handed, Owner};
use relay_pushing::Keeper;
use std::marker::Model;
use std::sync::Wait;

/// A registry as the keeper of one connection, which has no key: what it opened belongs to it, and nothing else does. It keeps what was
/// handed out to the connection until that is taken. Contracts see a `KeeperState`.
#[derive(Drop)]
pub(crate) struct SharedKeeper<'a, R> {
    rt: &'a R,
    registry: &'a Registry,
    speaker: Owner,
    /// The follower of the last accepted follow, until it is taken.
    handed: Option<Handed>,
}

impl<'a, R> Model for SharedKeeper<'a, R> {
    ghost use Rattle.relay_server.specs.Shared.{KeeperState};

    ghost Value = { KeeperState };

    ghost view = { λ k. record { speaker = k.speaker; handed = k.handed } };
}

impl<'a, R: Wait> SharedKeeper<'a, R> {
    /// The keeper of the connection of this number.
    pub(crate) fn new(rt: &'a R, registry: &'a Registry, connection: u32) -> SharedKeeper<'a, R> {
        SharedKeeper {
            rt,
            registry,
            speaker: Owner {
                key: None,
                opener: u64::from(connection),
            },
            handed: None,
        }
    }

    /// Takes the follower that was handed out, if it was not taken yet.
    pub(crate) fn take_handed(&mut self) -> Option<Handed>
        ensures taken { result ≡ self.old.handed }
        ensures rest { self.new ≡ record self.old { handed = None } }
    {
        self.handed.take()
    }

    /// The bell of the board of this name, if there is such a board.
    pub(crate) fn bell_of(&self, board: &BoardName) -> Option<BoardBell<'a, R>> {
        let at = self.registry.hall.lock(self.rt).place_of(board)?;
        let rings = self.registry.rings.get(at)?;
        Some(BoardBell { rt: self.rt, rings })
    }
}

impl<R: Wait> Keeper for SharedKeeper<'_, R> {
    ghost use Rattle.relay_server.specs.Shared.{KeeperMakes, Tells};

    ghost tells = { λ s question answer. Tells question answer };

    ghost makes = { λ s step reply t. KeeperMakes s step reply t };

    fn knows(&self, board: &BoardName) -> bool {
        self.registry.hall.lock(self.rt).place_of(board).is_some()
    }

    fn owns(&self, _board: &BoardName) -> bool {
        false
    }

    fn owns_any(&self) -> bool {
        false
    }

    fn step(&mut self, step: Step) -> Reply {
        let (reply, handed) = self.registry.step(self.rt, &self.speaker, &step);
        if handed.is_some() {
            self.handed = handed;
        }
        reply
    }
}
