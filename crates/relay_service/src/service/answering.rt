//! What connections are answered.

ghost use Rattle.std.specs.Prelude.{◌≡◌, IfOk, OnErr};
ghost use Rattle.relay_service.specs.declared.turn.NewDeed.TheVariants.{Answered, Failed};
ghost use Rattle.relay_service.specs.Calls.{AnswersAt, FailsAt};

use crate::service::Service;
use crate::turn::{Moments, NewDeed, NewTurn};
use std::alloc::AllocError;
use std::snapshot::Snapshot;

/// What was answered, or that there was no memory for it.
fn deed_of(answered: &Result<bool, AllocError>, moments: Moments) -> NewDeed
    ensures ok { IfOk answered.now (λ some. result ≡ Answered some moments) }
    ensures err { OnErr answered.now (result ≡ Failed moments) }
{
    match answered {
        Ok(some) => NewDeed::Answered(*some, moments),
        Err(_) => NewDeed::Failed(moments),
    }
}

impl Service {
    /// Answers what the connection of this number says next. An operator's is answered by the hall; if a follower is handed out, the
    /// connection follows from then on. One that follows is answered as RFC 6455 asks. Returns whether it said anything.
    ///
    /// # Errors
    ///
    /// There was no memory. Nothing has changed; or what was said next is lost, and the connection says no more.
    pub fn answer(&mut self, number: u64) -> Result<bool, AllocError>
        ensures ok { IfOk result (λ some. AnswersAt self.old number some self.new) }
        ensures err { OnErr result (FailsAt self.old number self.new) }
    {
        if self.follows(number) {
            return self.answer_follower(number);
        }
        if !self.is_present(number) {
            return Ok(false);
        }
        let Some(connection) = self.connections.get_mut(&number) else {
            return Ok(false);
        };
        let before = Snapshot::of(&self.hall);
        let (answered, handed) = connection.answer(self.alloc, &mut self.hall);
        let moments = Moments {
            before,
            handed,
            after: Snapshot::of(&self.hall),
        };
        let deed = deed_of(&answered, moments);
        self.turns = self.turns.and(&NewTurn::Happens(number, deed));
        answered
    }
}
