//! The request of a connection, which comes before it asks, and the answer to it (RFC 6455, section 4.2).

ghost use Rattle.std.specs.Prelude.{◌≡◌, ◌≤◌, [], length, take, OnErr, OnOk};
ghost use Rattle.relay_frames.specs.Heads.{EndsWithin};
ghost use Rattle.relay_service.specs.Calling.Coming.{Arrives, Judged, Settled, owner_by, turned_away, welcomed};
ghost use Rattle.relay_service.specs.declared.calling.stage.Stage.TheVariants.{Asks, Leaves};

use crate::calling::key::key_of;
use crate::calling::operator_connection::OperatorConnection;
use crate::calling::stage::Stage;
use relay_frames::{Acceptance, HeadSoFar, RequestRefusal, acceptance_of, head_so_far};
use std::alloc::AllocError;

impl OperatorConnection {
    /// These bytes of a request came.
    pub(crate) fn arrive(&mut self, bytes: &[u8]) -> Result<(), AllocError>
        ensures ok { OnOk result (Arrives self.old bytes.now self.new) }
        ensures err { OnErr result (self.new ≡ self.old) }
    {
        let seen = self.head.len();
        self.head.extend_from_slice(bytes)?;
        let head = head_so_far(self.head.as_slice(), seen);
        let settled = self.settle(head);
        if settled.is_err() {
            self.head.truncate(seen);
        }
        settled
    }

    /// Answers the request, if its head is whole or is refused before that.
    fn settle(&mut self, head: HeadSoFar) -> Result<(), AllocError>
        requires { EndsWithin (length self.old.head) head }
        ensures ok { OnOk result (Settled self.old head self.new) }
        ensures err { OnErr result (self.new ≡ self.old) }
    {
        match head {
            HeadSoFar::Part => Ok(()),
            HeadSoFar::Whole(end) => self.judge(end),
            HeadSoFar::Refused(refusal) => self.turn_away(refusal),
        }
    }

    /// Answers the request whose head ends here.
    fn judge(&mut self, end: usize) -> Result<(), AllocError>
        requires { end ≤ length self.old.head }
        ensures ok { OnOk result (Judged self.old end self.new) }
        ensures err { OnErr result (self.new ≡ self.old) }
    {
        match acceptance_of(&self.head[..end]) {
            Ok(acceptance) => self.welcome(&acceptance, end),
            Err(refusal) => self.turn_away(refusal),
        }
    }

    /// Answers a request that is accepted, whose head ends here. What came behind it is the first that the peer says.
    fn welcome(&mut self, acceptance: &Acceptance, end: usize) -> Result<(), AllocError>
        requires { end ≤ length self.old.head }
        ensures ok { OnOk result (self.new ≡ welcomed self.old end acceptance.now.value) }
        ensures err { OnErr result (self.new ≡ self.old) }
    {
        let before = self.output.len();
        self.output.accept(acceptance)?;
        match self.peer.feed(&self.head[end..]) {
            Ok(()) => {
                self.begin(end);
                Ok(())
            }
            Err(error) => {
                self.output.truncate(before);
                Err(error)
            }
        }
    }

    /// Asks from now on, as the owner that the head names, which ends here.
    fn begin(&mut self, end: usize)
        requires { end ≤ length self.old.head }
        ensures { self.new ≡ record self.old { head = []; who = owner_by self.old.takes_keys (take end self.old.head) self.old.who; stage = Asks } }
    {
        if self.takes_keys {
            self.owner.key = key_of(&self.head[..end]);
        }
        self.head = Vec::new(self.alloc);
        self.stage = Stage::Asks;
    }

    /// Answers a request that is refused, and leaves.
    fn turn_away(&mut self, refusal: RequestRefusal) -> Result<(), AllocError>
        ensures ok { OnOk result (self.new ≡ turned_away self.old refusal) }
        ensures err { OnErr result (self.new ≡ self.old) }
    {
        self.output.refuse(refusal)?;
        self.head = Vec::new(self.alloc);
        self.stage = Stage::Leaves;
        Ok(())
    }
}
