//! What the peer of a connection that follows says, and the answers to that.

ghost use Rattle.std.specs.Prelude.{◌≡◌, IfOk, OnErr, OnOk, true};
ghost use Rattle.relay_frames.specs.Events.{told};
ghost use Rattle.relay_service.specs.Following.Calls.{Answers, Fails, answered, delivers, is_heard, left as left_as, passes_over};
ghost use Rattle.relay_service.specs.declared.following.stage.Stage.TheVariants.{Follows, Left};

use crate::following::connection::FollowerConnection;
use relay_frames::{Code, Event};
use std::alloc::AllocError;

/// How many bytes of messages may come that nobody answers.
const MOST_UNANSWERED: u64 = 65536;

/// What a message counts beside its payload: the smallest head of a peer's frame.
const HEAD_BYTES: u64 = 6;

impl FollowerConnection {
    /// Answers what the bytes say next, while it follows and no more than 16,384 bytes are due: a ping by its pong, a close by a close with
    /// its code or none, a breach by a close with that of the breach. A message is not answered; beyond 65,536 bytes of messages, each with
    /// a head of 6, it is closed with 1008. Behind a close or a breach it follows no more, and its slot is free. Returns whether there was
    /// something to answer.
    ///
    /// # Errors
    ///
    /// There was no memory. Nothing has changed; or what was said next is lost, nothing was put, and it follows no more.
    pub fn answer(&mut self) -> Result<bool, AllocError>
        ensures ok { IfOk result (λ some. Answers some self.old self.new) }
        ensures err { OnErr result (Fails self.old self.new) }
    {
        if !self.is_heard() {
            return Ok(false);
        }
        match self.peer.next() {
            Ok(Some(event)) => self.take_in(event),
            Ok(None) => Ok(false),
            Err(error) => Err(error),
        }
    }

    /// Whether it is heard.
    fn is_heard(&self) -> bool
        ensures { result ≡ is_heard self.now.delivery }
    {
        self.delivery.follows() && !self.delivery.is_full()
    }

    /// Answers an event, which is let go then.
    fn take_in(&mut self, event: Event) -> Result<bool, AllocError>
        requires { self.old.delivery.stage ≡ Follows }
        ensures ok { IfOk result (λ some. (some ≡ true) × (self.new ≡ answered (told event) self.old)) }
        ensures err { OnErr result (self.new ≡ delivers self.old (left_as self.old.delivery Left)) }
    {
        let answered = self.meet(&event);
        if answered.is_err() {
            self.delivery.leave();
            return Err(AllocError);
        }
        self.progress.note(&event);
        Ok(true)
    }

    /// Answers an event.
    fn meet(&mut self, event: &Event) -> Result<(), AllocError>
        requires { self.old.delivery.stage ≡ Follows }
        ensures ok { OnOk result (self.new ≡ answered (told event.now) self.old) }
        ensures err { OnErr result (self.new ≡ self.old) }
    {
        match event {
            Event::Ping(payload) => self.delivery.put_pong(payload.as_slice()),
            Event::Text(text) => self.pass_over(text.as_str().len()),
            Event::Binary(bytes) => self.pass_over(bytes.len()),
            Event::Closed(code) => self.delivery.close(*code),
            Event::Broken(breach) => self.delivery.close(Some(breach.code())),
            Event::Fragment | Event::Pong(_) => Ok(()),
        }
    }

    /// Passes over a message of this many bytes, which is not answered.
    #[tactic(auto, unfolding(relay_frames::specs::Codes::may_be_sent))]
    fn pass_over(&mut self, size: usize) -> Result<(), AllocError>
        requires { self.old.delivery.stage ≡ Follows }
        ensures ok { OnOk result (self.new ≡ passes_over self.old size) }
        ensures err { OnErr result (self.new ≡ self.old) }
    {
        let unanswered = self
            .unanswered
            .saturating_add(size as u64)
            .saturating_add(HEAD_BYTES);
        if unanswered > MOST_UNANSWERED {
            return self.delivery.close(Some(Code::POLICY));
        }
        self.unanswered = unanswered;
        Ok(())
    }
}
