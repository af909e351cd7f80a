//! What a connection is sent, answers and the moves of the board that it follows, and how it leaves once it has been.

use super::Common;
use crate::client::{Client, Ends, State};
use crate::passing::send_to;
use crate::watchers::Watchers;
use relay_frames::Code;
use relay_service::Stage;
use server_loop::Delivery;
use std::sync::Wait;
use std::time::Clock;

impl<'a, R: Wait + Clock, W: Watchers> Common<'a, R, W> {
    /// Sends a connection what is due, and before that puts the moves of its board behind it, if it follows. If there are more moves, it
    /// has another turn, after the others.
    pub(crate) fn deliver(&mut self, client: &mut Client) -> Result<(), Ends> {
        if client.is_blocked() {
            return Ok(());
        }
        let mut has_more = false;
        if client.follows() {
            has_more = self.service.push(client.number())?;
            self.notes_role(client)?;
        }
        self.send(client)?;
        if has_more && !client.is_blocked() {
            self.stands_due(client);
        }
        Ok(())
    }

    /// Writes to a connection what is due, as far as it takes that. All that boards have is on the disk before, if they are kept there.
    pub(super) fn send(&mut self, client: &mut Client) -> Result<(), Ends> {
        if matches!(client.state, State::Drains(_)) || !self.commits() {
            return Ok(());
        }
        match send_to(client, &mut self.service) {
            Delivery::All => return self.has_sent_all(client),
            Delivery::Blocked => self.blocks(client),
            Delivery::Failed => return Err(Ends::Gone),
        }
        Ok(())
    }

    /// A connection took everything that was due. If it says no more, that was all; if it was not answered meanwhile, it is again.
    fn has_sent_all(&mut self, client: &mut Client) -> Result<(), Ends> {
        client.deadlines.is_served();
        match client.state {
            State::InputClosed => return Err(Ends::Gone),
            _ if self.service.stage(client.number()) == Some(Stage::Leaves) => self.drains(client),
            State::Full => {
                client.state = State::Interrupted;
                self.stands_due(client);
            }
            _ => {}
        }
        Ok(())
    }

    /// A connection takes no more now. One that says no more leaves the hall meanwhile.
    fn blocks(&mut self, client: &mut Client) {
        client.deadlines.is_kept_waiting(self.clock.millis());
        if client.state == State::InputClosed
            || self.service.stage(client.number()) == Some(Stage::Leaves)
        {
            self.leaves_hall(client.number(), Some(&mut *client));
        }
    }

    /// Tells a connection that the server goes away from it, and then ends it.
    #[tactic(auto, unfolding(relay_frames::specs::Codes::may_be_sent))]
    pub(super) fn close(&mut self, client: &mut Client) -> Result<(), Ends> {
        self.service.close(client.number(), Code::AWAY)?;
        self.notes_role(client)?;
        self.send(client)
    }

    // ---- How it leaves.

    /// A connection that says nothing more leaves the hall and the board that it follows, unless it has before: its boards are ended as
    /// abandoned, or wait. Returns whether it has left. One with boards leaves only behind the next `tick` if other boards have waited long
    /// enough and have yet to be ended by that: whoever came back to these in time may not have been heard yet, and the time that comes
    /// with this connection would end them. Of one that has gone meanwhile there is only the number.
    pub(crate) fn leaves_hall(&mut self, number: u64, client: Option<&mut Client>) -> bool {
        let Some(owner) = self.service.owner(number) else {
            return true;
        };
        if owner.key.is_some() || self.service.is_owner(number) {
            // The millisecond that has begun counts: boards that wait from then on do not wait too little.
            self.clock.look(self.rt);
            let now = self.clock.millis().saturating_add(1);
            let next_due = self.service.hall().next_due();
            if next_due.is_some_and(|due| due <= now) && self.late.push(number).is_ok() {
                return false;
            }
            self.service.tick(now);
        }
        self.service.leave(number);
        self.gather();
        if let Some(client) = client {
            self.leaves_board(client);
        }
        if let Some(key) = &owner.key {
            self.log.came_or_left(self.service.hall(), key);
        }
        true
    }

    /// The output of a connection has ended. It goes, unless something has yet to be sent to it.
    pub(super) fn hears_the_end(&mut self, client: &mut Client) -> Result<(), Ends> {
        self.tell_watchers();
        self.send(client)?;
        if !client.is_blocked() || matches!(client.state, State::Drains(_)) {
            return Err(Ends::Gone);
        }
        if client.state == State::Comes {
            self.coming = self.coming.saturating_sub(1);
        }
        client.state = State::InputClosed;
        self.leaves_hall(client.number(), Some(&mut *client));
        Ok(())
    }

    /// A connection was sent everything, and is let go: it leaves the hall, and the output to it ends.
    pub(super) fn drains(&mut self, client: &mut Client) {
        self.leaves_hall(client.number(), Some(&mut *client));
        client.drains(self.clock.millis());
        self.stands_due(client);
    }

    /// A connection goes, and is none any more.
    pub(crate) fn lets_go(&mut self, mut client: Client, why: Ends) {
        if why == Ends::OutOfMemory && self.tell_watchers() {
            let _ = send_to(&client, &mut self.service);
        }
        if client.state == State::Comes {
            self.coming = self.coming.saturating_sub(1);
        }
        let number = client.number();
        if self.leaves_hall(number, Some(&mut client)) {
            self.service.disconnect(number);
        } else {
            self.leaves_board(&mut client);
        }
    }
}
