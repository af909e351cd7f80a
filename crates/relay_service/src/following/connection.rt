//! A connection that follows a board.

ghost use Rattle.std.specs.Prelude.{◌≡◌, [], cond, IfOk, None, OnErr, OnOk, Some, false};
ghost use Rattle.relay_frames.specs.Reading.{is_midway};
ghost use Rattle.live_board.specs.Views.{next_of};
ghost use Rattle.relay_service.specs.Following.Boards.{IsIn};
ghost use Rattle.relay_service.specs.Following.Calls.{after_feed, closed_by, delivers, gone, is_full, pinged, wrote};
ghost use Rattle.relay_service.specs.Following.Pushing.{PushFails, Pushes};
ghost use Rattle.relay_service.specs.Following.Record.{follows, newcomer};
ghost use Rattle.relay_service.specs.Following.Served.{IsOpening, IsServed};
ghost use Rattle.relay_service.specs.declared.following.stage.Stage.TheVariants.{Follows};

mod hearing;

use crate::following::delivery::Delivery;
use crate::following::stage::Stage;
use relay_core::BoardName;
use relay_frames::{Code, Peer, Progress};
use relay_hall::{Hall, Handed};
use relay_pushing::LastText;
use std::alloc::AllocError;
use std::marker::Model;

/// A connection that follows a board, from the bytes on that told it so. It is fed the bytes that came from its peer, answers what they
/// say, is pushed the moves of its board, and offers the bytes that are due. Contracts see a `ConnectionRecord`.
#[derive(Drop)]
pub struct FollowerConnection {
    delivery: Delivery,
    peer: Peer,
    /// How many bytes of messages came that nobody answers.
    unanswered: u64,
    progress: Progress,
}

impl Model for FollowerConnection {
    ghost use Rattle.relay_service.specs.Following.Record.{ConnectionRecord};

    ghost Value = { ConnectionRecord };

    ghost use Rattle.relay_service.specs.Following.ConnectionInner.{IsConnection, connection_of};

    ghost view = { connection_of };

    ghost invariant = { IsConnection };
}

impl FollowerConnection {
    /// A connection to which this was handed out, of whose peer so much was read, and which is to be sent these bytes first. The last of
    /// them tell where its follower joined.
    pub fn new(handed: Handed, peer: Peer, opening: Vec<u8>) -> FollowerConnection
        requires untaken { handed.follower.part.taken ≡ [] }
        requires told { IsOpening opening.items handed.follower.part }
        ensures { result ≡ newcomer handed peer opening.items }
    {
        FollowerConnection {
            delivery: Delivery::new(handed, opening),
            peer,
            unanswered: 0,
            progress: Progress::new(),
        }
    }

    // ---- What it is.

    /// The name of its board.
    pub fn board(&self) -> BoardName
        ensures { result ≡ self.now.delivery.board }
    {
        self.delivery.board()
    }

    /// How far it has come.
    pub fn stage(&self) -> Stage
        ensures { result ≡ self.now.delivery.stage }
    {
        self.delivery.stage()
    }

    /// The place of the move that it takes next, while it follows.
    pub fn next(&self) -> Option<u64>
        ensures { result ≡ cond (follows self.now.delivery.stage) (Some (next_of self.now.delivery.follower.part)) None }
    {
        self.delivery.next()
    }

    /// Whether it is in the middle of a frame or of a message, so that more has to come soon.
    pub fn is_midway(&self) -> bool
        ensures { result ≡ is_midway self.now.reading }
    {
        self.peer.is_midway()
    }

    /// Whether something that came whole was answered since the last such call: a message, or a ping, a pong or a close that is not between
    /// the parts of one. By that a driver measures how long the rest of a message takes. It is no part of what contracts see.
    pub fn take_whole(&mut self) -> bool
        ensures { self.new ≡ self.old }
    {
        self.progress.take_whole()
    }

    /// Whether so much is due that it is not heard until some of it is sent.
    pub fn is_full(&self) -> bool
        ensures { result ≡ is_full self.now.delivery }
    {
        self.delivery.is_full()
    }

    /// Offers the bytes that are due. With what was sent before they are its opening and the frames of its pieces, of which the moves are
    /// those that its follower has taken.
    pub fn output(&self) -> &[u8]
        ensures due { result.now ≡ self.now.delivery.due }
        ensures served { IsServed self.now.delivery }
    {
        self.delivery.due()
    }

    // ---- What is done to it.

    /// The first `n` of the bytes due were sent, or all if they are fewer.
    pub fn sent(&mut self, n: usize)
        ensures { self.new ≡ delivers self.old (wrote self.old.delivery n) }
    {
        self.delivery.sent(n);
    }

    /// These bytes came. Those of one that follows no more are dropped (RFC 6455, sections 1.4 and 7.1.7).
    ///
    /// # Errors
    ///
    /// There was no memory. Then nothing has changed.
    pub fn feed(&mut self, bytes: &[u8]) -> Result<(), AllocError>
        ensures fed { OnOk result (self.new ≡ after_feed self.old bytes.now) }
        ensures unchanged { OnErr result (self.new ≡ self.old) }
    {
        if self.delivery.follows() {
            self.peer.feed(bytes)
        } else {
            Ok(())
        }
    }

    /// Puts the moves of the board of its name in this hall, as far as they were not put before, while less than `most` bytes are due.
    /// Behind the last one it puts the end if there is one, and then it follows no more: that the game has ended, closed with 1000, or with
    /// 1001 if the server is ending; or that it was cut off, closed with 4001. Returns whether more can be put once what is due is sent.
    /// Nothing is done to one that follows no more.
    ///
    /// # Errors
    ///
    /// There was no memory. All that was put is due. Either it still follows, and nothing that was taken is missing; or one move was taken
    /// and not put, and it follows no more.
    pub fn push(
        &mut self,
        hall: &mut Hall,
        last: &mut LastText,
        most: usize,
        is_ending: bool,
    ) -> Result<bool, AllocError>
        requires is_in { IsIn hall.old.floor self.old.delivery }
        ensures ok { self.old.delivery.stage ≡ Follows → IfOk result (λ more. Pushes hall.old.floor most is_ending self.old.delivery self.new.delivery more) }
        ensures err { OnErr result ((self.old.delivery.stage ≡ Follows) × PushFails most self.old.delivery self.new.delivery) }
        ensures gone { follows self.old.delivery.stage ≡ false → (self.new ≡ self.old) × IfOk result (λ more. more ≡ false) }
        ensures rest { self.new ≡ delivers self.old self.new.delivery }
        ensures is_in { IsIn hall.new.floor self.new.delivery }
        ensures hall { hall.new ≡ hall.old }
    {
        if !self.delivery.follows() {
            return Ok(false);
        }
        self.delivery.push(hall, last, most, is_ending)
    }

    /// Puts a ping behind what is due, if it follows: by its pong a silent peer shows that it is there (RFC 6455, section 5.5.2).
    ///
    /// # Errors
    ///
    /// There was no memory. Then nothing has changed.
    pub fn ping(&mut self) -> Result<(), AllocError>
        ensures ok { OnOk result (self.new ≡ pinged self.old) }
        ensures err { OnErr result (self.new ≡ self.old) }
    {
        if self.delivery.follows() {
            self.delivery.put_ping()
        } else {
            Ok(())
        }
    }

    /// Puts a close with this code behind what is due, if it follows. Then it follows no more, and its slot is free.
    ///
    /// # Errors
    ///
    /// There was no memory. Then nothing has changed.
    pub fn close(&mut self, code: Code) -> Result<(), AllocError>
        ensures ok { OnOk result (self.new ≡ closed_by self.old code.number) }
        ensures err { OnErr result (self.new ≡ self.old) }
    {
        if self.delivery.follows() {
            self.delivery.close(Some(code))
        } else {
            Ok(())
        }
    }

    /// It follows no more, and its slot is free. It is still sent what is due.
    pub fn leave(&mut self)
        ensures { self.new ≡ gone self.old }
    {
        self.delivery.leave();
    }
}
