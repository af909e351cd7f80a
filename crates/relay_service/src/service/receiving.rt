//! What comes from connections.

ghost use Rattle.std.specs.Prelude.{◌≡◌, ◌⊎◌, ◌++◌, OnErr, OnOk, is_some, true};
ghost use Rattle.relay_service.specs.Calls.{Enters, Loses, ReceivesAt, arrivals};

use crate::bytes::Bytes;
use crate::service::Service;
use crate::turn::{NewDeed, NewTurn};
use crate::turns::Turns;
use relay_hall::{Hall, Key};
use std::alloc::AllocError;
use std::snapshot::Snapshot;

/// A connection comes to the hall, if it does so with a key.
fn arrive(hall: &mut Hall, key: &Option<Key>) -> Result<(), AllocError>
    ensures ok { OnOk result (Enters hall.old key.now hall.new) }
    ensures err { OnErr result (hall.new ≡ hall.old) }
    ensures keyed { OnErr result (is_some key.now ≡ true) }
{
    match key {
        None => Ok(()),
        Some(key) => {
            hall.arrive(key)?;
            Ok(())
        }
    }
}

/// These turns, and then that a connection came to the hall, if it did so with a key.
fn with_arrival(turns: Turns, key: &Option<Key>) -> Turns
    ensures { result.items ≡ turns.items ++ arrivals key.now }
{
    match key {
        None => turns,
        Some(key) => turns.and(&NewTurn::Comes(Snapshot::of(key))),
    }
}

impl Service {
    /// These bytes came from the connection of this number. If they end its request, which is accepted and names a key, it comes to the
    /// hall. Bytes of one that is not present there any more are dropped.
    ///
    /// # Errors
    ///
    /// There was no memory. Nothing has changed; or there was none for it to come to the hall, and there is no such connection any more.
    #[tactic(auto, using(std::proofs::lemmas::Map::Steps::set_value_same))]
    pub fn receive(&mut self, number: u64, bytes: &[u8]) -> Result<(), AllocError>
        ensures ok { OnOk result (ReceivesAt self.old number bytes.now self.new) }
        ensures err { OnErr result ((self.new ≡ self.old) ⊎ Loses self.old number bytes.now self.new) }
    {
        if self.follows(number) {
            return self.feed_follower(number, bytes);
        }
        if !self.is_present(number) {
            return Ok(());
        }
        let Some(connection) = self.connections.get_mut(&number) else {
            return Ok(());
        };
        let key = connection.feed(bytes)?;
        let arrived = arrive(&mut self.hall, &key);
        let deed = NewDeed::Came(Bytes::of(bytes));
        let turns = self.turns.and(&NewTurn::Happens(number, deed));
        if let Err(error) = arrived {
            self.turns = turns;
            self.connections.swap_remove(&number);
            return Err(error);
        }
        self.turns = with_arrival(turns, &key);
        Ok(())
    }
}
