//! A hall and all connections, as one value.

ghost use Rattle.std.specs.Prelude.{◌≡◌, ◌+◌, ℕ, List, [], Some, None, IfOk, OnErr, OnOk, false};
ghost use Rattle.std.specs.Map.{lookup};
ghost use Rattle.c960_game.specs.Game960.{Game960};
ghost use Rattle.relay_core.specs.Name.{same_name};
ghost use Rattle.relay_hall.specs.Holders.{presence_of};
ghost use Rattle.relay_hall.specs.Record.{HallBoard};
ghost use Rattle.relay_hall.specs.Restart.{IsRestart};
ghost use Rattle.relay_hall.specs.Runs.{IsInTime, present};
ghost use Rattle.relay_service.specs.Calling.Connections.{deeds_of};
ghost use Rattle.relay_service.specs.Calls.{Replaces};
ghost use Rattle.relay_service.specs.Record.{begun, opened};
ghost use Rattle.relay_service.specs.Resumed.{IsResumed};
ghost use Rattle.relay_service.specs.Runs.{IsOrderlyService, has_left, holders_after};

mod answering;
mod following;
mod leaving;
mod looking;
mod passing;
mod receiving;
mod sending;

use crate::connection::Connection;
use crate::turns::Turns;
use c960_game::Limits;
use indexmap::IndexMap;
use relay_hall::Hall;
use relay_hall::laws::whatever_happens;
use relay_pushing::LastText;
use std::alloc::{AllocError, Global};
use std::marker::Model;
use std::snapshot::Snapshot;

/// All boards and all connections. Contracts see a `ServiceRecord`, which has all turns so far: each call says which turn it adds.
#[derive(Drop)]
pub struct Service {
    alloc: Global,
    hall: Hall,
    connections: IndexMap<u64, Connection>,
    /// The number of the next connection.
    next: u64,
    /// Whether requests may name keys.
    takes_keys: bool,
    /// Whether the end of all was called.
    is_ending: bool,
    /// The text of a move or an end that was made last, for all that follow.
    last: LastText,
    limits: Snapshot<Limits>,
    grace: Snapshot<u64>,
    /// The turns that made the hall again before any connection came, which are the first of all.
    restarted: Snapshot<Turns>,
    turns: Turns,
}

impl Model for Service {
    ghost use Rattle.relay_service.specs.Record.{ServiceRecord};

    ghost Value = { ServiceRecord };

    ghost use Rattle.relay_service.specs.Inner.{IsService, service_of};

    ghost view = { service_of };

    ghost invariant = { IsService };
}

impl Service {
    /// A service without boards and connections. Boards of a key wait `grace` milliseconds for a connection with it.
    ///
    /// # Errors
    ///
    /// There was no memory.
    pub fn new(
        alloc: Global,
        limits: Limits,
        grace: u64,
        takes_keys: bool,
    ) -> Result<Service, AllocError>
        ensures { IfOk result (λ s. s ≡ begun limits grace takes_keys) }
    {
        let turns = Turns::new();
        Ok(Service {
            alloc,
            hall: Hall::new(alloc, limits, grace)?,
            connections: IndexMap::new(alloc),
            next: 0,
            takes_keys,
            is_ending: false,
            last: LastText::new(alloc),
            limits: Snapshot::of(&limits),
            grace: Snapshot::of(&grace),
            restarted: Snapshot::of(&turns),
            turns,
        })
    }

    /// A service that goes on with the boards of a hall that was made again before any connection came. Its connections have numbers from
    /// `next` on.
    pub fn resume(
        alloc: Global,
        hall: Hall,
        next: u64,
        takes_keys: bool,
        limits: &Limits,
        grace: u64,
    ) -> Service
        requires restart { IsRestart limits.now grace next hall }
        ensures { IsResumed limits.now grace next takes_keys hall result }
    {
        let turns = Turns::of_restart(limits, &grace, &next, &hall);
        Service {
            alloc,
            hall,
            connections: IndexMap::new(alloc),
            next,
            takes_keys,
            is_ending: false,
            last: LastText::new(alloc),
            limits: Snapshot::of(limits),
            grace: Snapshot::of(&grace),
            restarted: Snapshot::of(&turns),
            turns,
        }
    }

    /// A connection has come, of which nothing was read yet. Returns its number, which was never used before.
    ///
    /// # Errors
    ///
    /// There was no memory, or no number is left. Nothing has changed.
    pub fn connect(&mut self) -> Result<u64, AllocError>
        ensures number { IfOk result (λ number. number ≡ self.old.next) }
        ensures fresh { IfOk result (λ number. deeds_of number self.old.turns ≡ []) }
        ensures there { IfOk result (λ number. Replaces number (Some (opened number self.old.takes_keys)) self.old.connections self.new.connections) }
        ensures rest { OnOk result (self.new ≡ record self.old { connections = self.new.connections; next = self.old.next + 1 }) }
        ensures unchanged { OnErr result (self.new ≡ self.old) }
    {
        let number = self.next;
        let Some(next) = number.checked_add(1) else {
            return Err(AllocError);
        };
        let connection = Connection::new(self.alloc, number, self.takes_keys);
        if self.connections.insert(number, connection).is_err() {
            return Err(AllocError);
        }
        self.next = next;
        Ok(number)
    }

    /// The hall, to be looked at. It is what the turns so far make of an empty hall, in an orderly run. The first of them are those by
    /// which it was made again, if it was. So each of its games is legal, and one that goes on has somebody: its opener has not gone, or
    /// its key is held or in time. As many hold a key as came with it by the turns and have not gone.
    pub fn hall(&self) -> &Hall
        ensures hall { result.now ≡ self.now.hall }
        ensures run { IsOrderlyService self.now }
        ensures games { (name : List ℕ) (b : HallBoard) → lookup (same_name name) self.now.hall.floor.boards ≡ Some b → Game960 b.game.start b.game.log }
        ensures there { (name : List ℕ) (b : HallBoard) → lookup (same_name name) self.now.hall.floor.boards ≡ Some b
            → b.owner.key ≡ None → b.game.outcome ≡ None → has_left b.owner.opener self.now.turns ≡ false }
        ensures held { (name : List ℕ) (b : HallBoard) → lookup (same_name name) self.now.hall.floor.boards ≡ Some b → (key : List ℕ) → b.owner.key ≡ Some key
            → b.game.outcome ≡ None → IsInTime self.now.hall.time self.now.hall.shut (presence_of key self.now.hall.keys) }
        ensures counted { (key : List ℕ) → present (presence_of key self.now.hall.keys) ≡ holders_after (λ q. 0) self.now.turns key }
    {
        whatever_happens();
        &self.hall
    }
}
