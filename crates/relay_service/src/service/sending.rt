//! What connections are sent.

ghost use Rattle.std.specs.Prelude.{◌≡◌, OnErr, OnOk};
ghost use Rattle.relay_service.specs.Calling.Running.{was_pinged, was_sent_away};
ghost use Rattle.relay_service.specs.Following.Calls.{closed_by, pinged};
ghost use Rattle.relay_service.specs.Calls.{IsServedAt, PutsAt, SendsAt};
ghost use Rattle.relay_service.specs.Record.{due_at};

use crate::calling::laws::however_many_there_are;
use crate::connection::Connection;
use crate::service::Service;
use crate::turn::{NewDeed, NewTurn};
use relay_frames::Code;
use std::alloc::AllocError;

impl Service {
    /// Offers the bytes that are due to the connection of this number. With what was sent to it before, they are what its deeds among all
    /// turns so far require; and of one that follows then the moves of the board of its name in this very hall, each once and in order,
    /// from where it joined to as far as it has come, and the end.
    pub fn output(&self, number: u64) -> &[u8]
        ensures due { result.now ≡ due_at self.now number }
        ensures served { IsServedAt self.now number }
    {
        however_many_there_are();
        match self.connections.get(&number) {
            Some(Connection::Operator { connection, .. }) => connection.due(),
            Some(Connection::Follower { connection, .. }) => connection.output(),
            None => &[],
        }
    }

    /// The first `n` of the bytes due to the connection of this number were sent, or all if they are fewer.
    pub fn sent(&mut self, number: u64, n: usize)
        ensures { SendsAt self.old number n self.new }
    {
        if self.follows(number) {
            self.sent_to_follower(number, n);
            return;
        }
        if !self.is_operator(number) {
            return;
        }
        let Some(connection) = self.connections.get_mut(&number) else {
            return;
        };
        let deed = NewDeed::Wrote(connection.sent(n));
        self.turns = self.turns.and(&NewTurn::Happens(number, deed));
    }

    /// Puts a ping behind what is due to the connection of this number, if it asks or follows.
    ///
    /// # Errors
    ///
    /// There was no memory. Nothing has changed.
    #[tactic(auto, using(std::proofs::lemmas::Map::Steps::set_value_same))]
    pub fn ping(&mut self, number: u64) -> Result<(), AllocError>
        ensures ok { OnOk result (PutsAt self.old number was_pinged pinged self.new) }
        ensures err { OnErr result (self.new ≡ self.old) }
    {
        if self.follows(number) {
            return self.ping_follower(number);
        }
        if !self.is_present(number) {
            return Ok(());
        }
        let Some(connection) = self.connections.get_mut(&number) else {
            return Ok(());
        };
        let deed = NewDeed::WasPinged(connection.ping()?);
        self.turns = self.turns.and(&NewTurn::Happens(number, deed));
        Ok(())
    }

    /// Puts a close with this code behind what is due to the connection of this number, if it asks or follows. Then it says no more, and
    /// has left the board that it followed.
    ///
    /// # Errors
    ///
    /// There was no memory. Nothing has changed.
    #[tactic(auto, using(std::proofs::lemmas::Map::Steps::set_value_same))]
    pub fn close(&mut self, number: u64, code: Code) -> Result<(), AllocError>
        ensures ok { OnOk result (PutsAt self.old number (λ some. was_sent_away some code.number) (λ f. closed_by f code.number) self.new) }
        ensures err { OnErr result (self.new ≡ self.old) }
    {
        if self.follows(number) {
            return self.close_follower(number, code);
        }
        if !self.is_present(number) {
            return Ok(());
        }
        let Some(connection) = self.connections.get_mut(&number) else {
            return Ok(());
        };
        let deed = NewDeed::WasClosed(connection.close(code)?, code.number);
        self.turns = self.turns.and(&NewTurn::Happens(number, deed));
        Ok(())
    }
}
