//! How connections go.

ghost use Rattle.relay_service.specs.Calls.{DisconnectsAt, LeavesAt};

use crate::connection::Connection;
use crate::service::Service;
use crate::turn::NewTurn;
use std::snapshot::Snapshot;

/// One that follows leaves its board.
fn let_go(connection: Option<Connection>) {
    if let Some(mut connection) = connection {
        connection.leave();
    }
}

impl Service {
    /// The connection of this number says no more and goes from the hall: its boards are ended, or wait. If it follows it leaves its board.
    /// It is still sent what is due.
    pub fn leave(&mut self, number: u64)
        ensures { LeavesAt self.old number self.new }
    {
        let Some(who) = self.owner(number) else {
            return;
        };
        let Some(connection) = self.connections.get_mut(&number) else {
            return;
        };
        connection.leave();
        self.hall.leave(&who);
        self.turns = self.turns.and(&NewTurn::Goes(Snapshot::of(&who)));
    }

    /// There is no connection of this number any more. It goes from the hall, if it is present there, and if it follows it leaves its
    /// board.
    pub fn disconnect(&mut self, number: u64)
        ensures { DisconnectsAt self.old number self.new }
    {
        let owner = self.owner(number);
        let_go(self.connections.swap_remove(&number));
        let Some(who) = owner else {
            return;
        };
        self.hall.leave(&who);
        self.turns = self.turns.and(&NewTurn::Goes(Snapshot::of(&who)));
    }
}
