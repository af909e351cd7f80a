//! What is done to a connection that follows. Nothing is done to any other.

ghost use Rattle.std.specs.Prelude.{◌≡◌, IfOk, OnErr, OnOk};
ghost use Rattle.relay_service.specs.Following.Calls.{Answers, Fails, after_feed, closed_by, delivers, pinged, wrote};
ghost use Rattle.relay_service.specs.Following.Record.{follows};
ghost use Rattle.relay_service.specs.Calls.{IfFollows, PushFailsTo, PushesTo};
ghost use Rattle.relay_service.specs.Inner.{IsJoined};

use crate::connection::Connection;
use relay_frames::Code;
use relay_hall::Hall;
use relay_pushing::LastText;
use std::alloc::AllocError;

impl Connection {
    /// These bytes came.
    ///
    /// # Errors
    ///
    /// There was no memory. Nothing has changed.
    pub(crate) fn feed_follower(&mut self, bytes: &[u8]) -> Result<(), AllocError>
        ensures ok { OnOk result (IfFollows self.old (λ f g. g ≡ after_feed f bytes.now) self.new) }
        ensures err { OnErr result (self.new ≡ self.old) }
    {
        match self {
            Connection::Follower { connection, .. } => connection.feed(bytes),
            Connection::Operator { .. } => Ok(()),
        }
    }

    /// Answers what it says next.
    ///
    /// # Errors
    ///
    /// There was no memory.
    pub(crate) fn answer_follower(&mut self) -> Result<bool, AllocError>
        ensures ok { IfOk result (λ some. IfFollows self.old (Answers some) self.new) }
        ensures err { OnErr result (IfFollows self.old Fails self.new) }
    {
        match self {
            Connection::Follower { connection, .. } => connection.answer(),
            Connection::Operator { .. } => Ok(false),
        }
    }

    /// Puts what it is sent next of the board of its name in this hall, while less than `most` is due.
    ///
    /// # Errors
    ///
    /// There was no memory.
    pub(crate) fn push(
        &mut self,
        hall: &mut Hall,
        last: &mut LastText,
        most: usize,
        is_ending: bool,
    ) -> Result<bool, AllocError>
        requires { IsJoined hall.old.floor self.old }
        ensures ok { IfOk result (λ more. IfFollows self.old (λ f g. PushesTo (follows f.delivery.stage) hall.old.floor most is_ending more f g) self.new) }
        ensures err { OnErr result (IfFollows self.old (PushFailsTo most) self.new) }
        ensures joined { IsJoined hall.old.floor self.new }
        ensures hall { hall.new ≡ hall.old }
    {
        match self {
            Connection::Follower { connection, .. } => connection.push(hall, last, most, is_ending),
            Connection::Operator { .. } => Ok(false),
        }
    }

    /// The first `n` of the bytes due were sent, or all if they are fewer.
    pub(crate) fn sent_to_follower(&mut self, n: usize)
        ensures { IfFollows self.old (λ f g. g ≡ delivers f (wrote f.delivery n)) self.new }
    {
        if let Connection::Follower { connection, .. } = self {
            connection.sent(n);
        }
    }

    /// Puts a ping behind what is due.
    ///
    /// # Errors
    ///
    /// There was no memory. Nothing has changed.
    pub(crate) fn ping_follower(&mut self) -> Result<(), AllocError>
        ensures ok { OnOk result (IfFollows self.old (λ f g. g ≡ pinged f) self.new) }
        ensures err { OnErr result (self.new ≡ self.old) }
    {
        match self {
            Connection::Follower { connection, .. } => connection.ping(),
            Connection::Operator { .. } => Ok(()),
        }
    }

    /// Puts a close with this code behind what is due. It leaves its board.
    ///
    /// # Errors
    ///
    /// There was no memory. Nothing has changed.
    pub(crate) fn close_follower(&mut self, code: Code) -> Result<(), AllocError>
        ensures ok { OnOk result (IfFollows self.old (λ f g. g ≡ closed_by f code.number) self.new) }
        ensures err { OnErr result (self.new ≡ self.old) }
    {
        match self {
            Connection::Follower { connection, .. } => connection.close(code),
            Connection::Operator { .. } => Ok(()),
        }
    }
}
