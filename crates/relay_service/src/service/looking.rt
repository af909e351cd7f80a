//! What a driver asks of connections.

ghost use Rattle.std.specs.Prelude.{◌≡◌, is_some};
ghost use Rattle.relay_service.specs.Looking.{is_full_at, is_midway_at, next_at, owns_any, place_at, stage_at, was_cut_at};
ghost use Rattle.relay_service.specs.Record.{follower_at, operator_at, owner_at, present_at};

use crate::connection::Connection;
use crate::service::Service;
use crate::stage::Stage;
use relay_hall::Owner;

impl Service {
    /// What the connection of this number does.
    pub fn stage(&self, number: u64) -> Option<Stage>
        ensures { result ≡ stage_at self.now number }
    {
        let connection = self.connections.get(&number)?;
        Some(connection.stage())
    }

    /// The index of the board that the connection of this number follows, in the order of opening.
    pub fn place(&self, number: u64) -> Option<usize>
        ensures { result ≡ place_at self.now number }
    {
        let follower = self.connections.get(&number)?.follower()?;
        self.hall.place_of(&follower.board())
    }

    /// The place of the move that the connection of this number takes next, if it follows.
    pub fn next(&self, number: u64) -> Option<u64>
        ensures { result ≡ next_at self.now number }
    {
        self.connections.get(&number)?.follower()?.next()
    }

    /// Whether the connection of this number was cut off from the board that it followed, since it was too slow, and told so.
    pub fn was_cut(&self, number: u64) -> bool
        ensures { result ≡ was_cut_at self.now number }
    {
        match self.connections.get(&number) {
            Some(connection) => connection.was_cut(),
            None => false,
        }
    }

    /// Whether the connection of this number follows a board, or did.
    pub(crate) fn follows(&self, number: u64) -> bool
        ensures { result ≡ is_some (follower_at self.now number) }
    {
        matches!(
            self.connections.get(&number),
            Some(Connection::Follower { .. })
        )
    }

    /// Whether the connection of this number is an operator's.
    pub(crate) fn is_operator(&self, number: u64) -> bool
        ensures { result ≡ is_some (operator_at self.now number) }
    {
        matches!(
            self.connections.get(&number),
            Some(Connection::Operator { .. })
        )
    }

    /// Whether the connection of this number is an operator's that is present in the hall.
    pub(crate) fn is_present(&self, number: u64) -> bool
        ensures { result ≡ is_some (present_at self.now number) }
    {
        match self.connections.get(&number) {
            Some(connection) => connection.is_present(),
            None => false,
        }
    }

    /// Who the connection of this number is in the hall, if it is present there.
    pub fn owner(&self, number: u64) -> Option<Owner>
        ensures { result ≡ owner_at self.now number }
    {
        self.connections.get(&number)?.owner()
    }

    /// Whether some board belongs to the connection of this number while it asks: it opened one, or its key owns one.
    pub fn is_owner(&self, number: u64) -> bool
        ensures { result ≡ owns_any self.now number }
    {
        match self.connections.get(&number) {
            Some(Connection::Operator { connection, .. }) => connection.is_owner(&self.hall),
            _ => false,
        }
    }

    /// Whether so much is due to the connection of this number that it is not heard.
    pub fn is_full(&self, number: u64) -> bool
        ensures { result ≡ is_full_at self.now number }
    {
        match self.connections.get(&number) {
            Some(connection) => connection.is_full(),
            None => false,
        }
    }

    /// Whether the connection of this number is in the middle of a frame or of a message, so that more has to come soon.
    pub fn is_midway(&self, number: u64) -> bool
        ensures { result ≡ is_midway_at self.now number }
    {
        match self.connections.get(&number) {
            Some(connection) => connection.is_midway(),
            None => false,
        }
    }

    /// Whether the connection of this number has said a whole message since the last such call. It is no part of what contracts see.
    #[tactic(auto, using(std::proofs::lemmas::Map::Steps::set_value_same))]
    pub fn take_said(&mut self, number: u64) -> bool
        ensures { self.new ≡ self.old }
    {
        let Some(connection) = self.connections.get_mut(&number) else {
            return false;
        };
        connection.take_said()
    }

    /// Whether something has come whole of the connection of this number since the last such call: a message, or what is not between the
    /// parts of one. It is no part of what contracts see.
    #[tactic(auto, using(std::proofs::lemmas::Map::Steps::set_value_same))]
    pub fn take_whole(&mut self, number: u64) -> bool
        ensures { self.new ≡ self.old }
    {
        let Some(connection) = self.connections.get_mut(&number) else {
            return false;
        };
        connection.take_whole()
    }
}
