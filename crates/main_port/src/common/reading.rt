//! What is read from a connection, and answered.

use super::Common;
use crate::client::{Client, Ends, Input, State};
use crate::passing::receive_from;
use crate::watchers::Watchers;
use relay_hall::Owner;
use relay_service::Stage;
use server_loop::{Intake, MOST_PIECES, PIECE_BYTES};
use std::sync::Wait;
use std::time::{Clock, Duration};

/// For how many microseconds one connection is answered in its turn.
const MOST_ANSWERED_MICROS: u64 = 50;

impl<'a, R: Wait + Clock, W: Watchers> Common<'a, R, W> {
    /// Gives a connection its turn, if it is still due one: it is sent what is due, and for a while it is answered and read.
    pub(crate) fn takes_turn(&mut self, client: &mut Client) -> Result<(), Ends> {
        if !client.is_queued {
            return Ok(());
        }
        client.is_queued = false;
        if client.is_blocked() {
            self.send(client)?;
        }
        // What one sends that leaves once what is due to it is written is not read.
        let is_leaving = client.is_blocked()
            && self.service.stage(client.number()) == Some(Stage::Leaves);
        if client.state != State::Interrupted && (is_leaving || !client.is_read()) {
            return Ok(());
        }
        let until = self.time_for(MOST_ANSWERED_MICROS);
        if client.state == State::Interrupted {
            client.state = State::Talks;
            self.answer(client, until)?;
        }
        for _ in 0..MOST_PIECES {
            self.pauses_if_refused(client);
            if !client.is_read() || !self.read(client, until)? {
                return Ok(());
            }
        }
        self.stands_due(client);
        Ok(())
    }

    /// A connection that was refused to follow is not read for a moment: from now on, however long its answers took.
    fn pauses_if_refused(&mut self, client: &mut Client) {
        if client.refused == 0 || client.state != State::Talks {
            return;
        }
        self.clock.look(self.rt);
        let now = self.clock.millis();
        client.state = State::Pauses;
        if let Err(_) = self.backoff.add(client.number(), now, client.refused) {
            client.has_paused();
        }
    }

    /// A connection that has paused is read again.
    pub(crate) fn ends_pause(&mut self, client: &mut Client) -> Result<(), Ends> {
        if client.state == State::Pauses {
            client.has_paused();
            self.stands_due(client);
        }
        Ok(())
    }

    /// Reads once from a connection, and answers what was read until this time. One to which everything was written has a bound on what is
    /// dropped. Returns whether it is read again in this turn.
    fn read(&mut self, client: &mut Client, until: Duration) -> Result<bool, Ends> {
        let mut piece = [0; PIECE_BYTES];
        match receive_from(client, &mut self.service, &mut piece)? {
            Intake::Bytes(n) => {
                if n < PIECE_BYTES && client.input == Input::Something {
                    // This was the last of what had come.
                    client.input = Input::Nothing;
                }
                if !client.drops() {
                    return Err(Ends::Gone);
                }
                self.shakes_hands(client);
                self.answer(client, until)?;
                return Ok(true);
            }
            Intake::Nothing => client.input = Input::Nothing,
            Intake::End => self.hears_the_end(client)?,
            Intake::Failed => return Err(Ends::Gone),
        }
        Ok(false)
    }

    /// If the request of a connection has come by now, it has shaken hands, or was refused.
    fn shakes_hands(&mut self, client: &mut Client) {
        if client.state != State::Comes
            || self.service.stage(client.number()) == Some(Stage::Comes)
        {
            return;
        }
        client.state = State::Talks;
        client.deadlines.begins(self.clock.millis());
        self.coming = self.coming.saturating_sub(1);
        if let Some(Owner { key: Some(key), .. }) = self.service.owner(client.number()) {
            self.log.came_or_left(self.service.hall(), &key);
        }
    }

    /// Answers what a connection said, as long as there is time for that, and some of it in any case: the rest has its turn later, after
    /// the others of the rank that it has by now, or after those who follow a board of it that is far ahead of them.
    fn answer(&mut self, client: &mut Client, until: Duration) -> Result<(), Ends> {
        if client.state != State::Talks {
            return Ok(());
        }
        let is_far_ahead = self.answer_until(client, until)?;
        self.has_heard(client);
        self.notes_role(client)?;
        if is_far_ahead {
            return Err(Ends::FarAhead);
        }
        if client.state == State::Interrupted {
            self.stands_due(client);
        }
        Ok(())
    }

    /// Answers a connection until this time, unless it has said nothing more, or has to wait before: its state says that. Returns whether
    /// a board of it is as far ahead of its followers as it may be.
    fn answer_until(&mut self, client: &mut Client, until: Duration) -> Result<bool, Ends> {
        client.state = State::Interrupted;
        for _ in 0..u64::MAX {
            if self.service.is_full(client.number()) {
                client.state = State::Full;
                if client.follows() {
                    // The rest of its message is not waited for meanwhile: what is due to it is not its own doing.
                    client.deadlines.owes_no_rest();
                }
                break;
            }
            let Some(is_far_ahead) = self.answer_next(client)? else {
                client.state = State::Talks;
                break;
            };
            if is_far_ahead || self.is_late(until) {
                return Ok(is_far_ahead);
            }
        }
        Ok(false)
    }

    /// Answers the next event of a connection, and notes what that made of the boards. Returns whether one is as far ahead of its followers
    /// as it may be, or nothing if the connection has said nothing more.
    fn answer_next(&mut self, client: &mut Client) -> Result<Option<bool>, Ends> {
        let boards = self.service.hall().len();
        let answered = self.service.answer(client.number());
        let is_far_ahead = self.gather();
        let hall = self.service.hall();
        if hall.len() > boards {
            self.watchers.changed(boards);
            self.log.opened(hall, boards);
        }
        if self.service.take_turned_away() {
            client.refused = client.refused.saturating_add(1);
        }
        Ok(answered?.then_some(is_far_ahead))
    }

    /// Something came from a connection, and was answered. After a message its time begins again. The rest of a message is waited for only
    /// once everything before it is answered. One whose rest was waited for before goes on to owe it meanwhile: else pings in the middle of
    /// a message, as many as one turn does not answer, would begin its time again.
    fn has_heard(&mut self, client: &mut Client) {
        let number = client.number();
        let now = self.clock.millis();
        if self.service.take_said(number) {
            client.deadlines.begins(now);
        }
        let deadlines = &mut client.deadlines;
        if self.service.take_whole(number) {
            deadlines.owes_no_rest();
        }
        let owes = match client.state {
            State::Interrupted | State::Full => deadlines.midway_since.is_some(),
            _ => self.service.is_midway(number),
        };
        deadlines.hears(now, owes);
    }
}
