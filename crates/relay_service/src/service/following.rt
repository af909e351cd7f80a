//! What is done to connections that follow.

ghost use Rattle.std.specs.Prelude.{◌≡◌, ◌-◌, ◌^◌, IfOk, OnErr, OnOk, is_some, true};
ghost use Rattle.relay_service.specs.Following.Calls.{Answers, Fails, after_feed, closed_by, delivers, pinged, wrote};
ghost use Rattle.relay_frames.specs.declared.output.TheConstants.{MOST_OUTPUT};
ghost use Rattle.relay_service.specs.Calls.{PushFailsAt, PushesAt, Serves};
ghost use Rattle.relay_service.specs.Record.{follower_at};

use crate::service::Service;
use relay_frames::{Code, MOST_OUTPUT};
use std::alloc::AllocError;

impl Service {
    /// Puts what the connection of this number is sent next of the board that it follows, by this hall: the moves that it can take while
    /// less than 16,384 bytes are due to it, and then the end and the close, if the game has ended or it was cut off. Returns whether more
    /// can be taken once what is due is sent.
    ///
    /// # Errors
    ///
    /// There was no memory. It still follows, and all that it has taken was put; or a move that it has taken is lost, and it has left its
    /// board.
    pub fn push(&mut self, number: u64) -> Result<bool, AllocError>
        ensures ok { IfOk result (λ more. PushesAt self.old number MOST_OUTPUT more self.new) }
        ensures err { OnErr result (PushFailsAt self.old number MOST_OUTPUT self.new) }
    {
        self.push_up_to(number, MOST_OUTPUT)
    }

    /// The same, however much is due to it already.
    ///
    /// # Errors
    ///
    /// There was no memory. It still follows, and all that it has taken was put; or a move that it has taken is lost, and it has left its
    /// board.
    pub fn push_all(&mut self, number: u64) -> Result<bool, AllocError>
        ensures ok { IfOk result (λ more. PushesAt self.old number (2 ^ 64 - 1) more self.new) }
        ensures err { OnErr result (PushFailsAt self.old number (2 ^ 64 - 1) self.new) }
    {
        self.push_up_to(number, usize::MAX)
    }

    /// The same, while less than this is due to it.
    ///
    /// # Errors
    ///
    /// There was no memory.
    fn push_up_to(&mut self, number: u64, most: usize) -> Result<bool, AllocError>
        ensures ok { IfOk result (λ more. PushesAt self.old number most more self.new) }
        ensures err { OnErr result (PushFailsAt self.old number most self.new) }
    {
        if !self.follows(number) {
            return Ok(false);
        }
        let Some(connection) = self.connections.get_mut(&number) else {
            unreachable!();
        };
        connection.push(&mut self.hall, &mut self.last, most, self.is_ending)
    }

    /// These bytes came from a connection that follows.
    ///
    /// # Errors
    ///
    /// There was no memory. Nothing has changed.
    #[tactic(auto, using(std::proofs::lemmas::Map::Steps::set_value_same))]
    pub(crate) fn feed_follower(&mut self, number: u64, bytes: &[u8]) -> Result<(), AllocError>
        requires follows { is_some (follower_at self.old number) ≡ true }
        ensures ok { OnOk result (Serves self.old number (λ f g. g ≡ after_feed f bytes.now) self.new) }
        ensures err { OnErr result (self.new ≡ self.old) }
    {
        let Some(connection) = self.connections.get_mut(&number) else {
            unreachable!();
        };
        connection.feed_follower(bytes)
    }

    /// Answers what a connection says next that follows. Returns whether it said anything.
    ///
    /// # Errors
    ///
    /// There was no memory. Nothing has changed; or what was said next is lost, and it has left its board.
    pub(crate) fn answer_follower(&mut self, number: u64) -> Result<bool, AllocError>
        requires follows { is_some (follower_at self.old number) ≡ true }
        ensures ok { IfOk result (λ some. Serves self.old number (Answers some) self.new) }
        ensures err { OnErr result (Serves self.old number Fails self.new) }
    {
        let Some(connection) = self.connections.get_mut(&number) else {
            unreachable!();
        };
        connection.answer_follower()
    }

    /// The first `n` of the bytes due to a connection that follows were sent, or all if they are fewer.
    pub(crate) fn sent_to_follower(&mut self, number: u64, n: usize)
        requires follows { is_some (follower_at self.old number) ≡ true }
        ensures { Serves self.old number (λ f g. g ≡ delivers f (wrote f.delivery n)) self.new }
    {
        let Some(connection) = self.connections.get_mut(&number) else {
            unreachable!();
        };
        connection.sent_to_follower(n);
    }

    /// Puts a ping behind what is due to a connection that follows.
    ///
    /// # Errors
    ///
    /// There was no memory. Nothing has changed.
    #[tactic(auto, using(std::proofs::lemmas::Map::Steps::set_value_same))]
    pub(crate) fn ping_follower(&mut self, number: u64) -> Result<(), AllocError>
        requires follows { is_some (follower_at self.old number) ≡ true }
        ensures ok { OnOk result (Serves self.old number (λ f g. g ≡ pinged f) self.new) }
        ensures err { OnErr result (self.new ≡ self.old) }
    {
        let Some(connection) = self.connections.get_mut(&number) else {
            unreachable!();
        };
        connection.ping_follower()
    }

    /// Puts a close with this code behind what is due to a connection that follows, which leaves its board.
    ///
    /// # Errors
    ///
    /// There was no memory. Nothing has changed.
    #[tactic(auto, using(std::proofs::lemmas::Map::Steps::set_value_same))]
    pub(crate) fn close_follower(&mut self, number: u64, code: Code) -> Result<(), AllocError>
        requires follows { is_some (follower_at self.old number) ≡ true }
        ensures ok { OnOk result (Serves self.old number (λ f g. g ≡ closed_by f code.number) self.new) }
        ensures err { OnErr result (self.new ≡ self.old) }
    {
        let Some(connection) = self.connections.get_mut(&number) else {
            unreachable!();
        };
        connection.close_follower(code)
    }
}
