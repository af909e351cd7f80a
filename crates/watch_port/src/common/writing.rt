//! What a client is sent: what it is owed, what is new, and what is due as time passes.

use super::Common;
use crate::client::{Client, Gone};
use crate::watch_connection::Doing;
use relay_frames::{Code, outgoing};
use relay_watching::Tape;
use server_loop::{Stage, Times, Verdict};
use std::alloc::AllocError;

impl<'a> Common<'a> {
    /// Writes to a client what is due, as far as its connection takes it.
    pub(crate) fn send(&mut self, client: &mut Client) -> Result<(), Gone> {
        // Without memory for them, changes are due again with those of the others.
        let _ = self.put_changes(client, false);
        if client.is_draining {
            return Ok(());
        }
        let now = self.now();
        let tape = self.tape_of(client);
        if !client.send(tape, now)? {
            return Ok(());
        }
        if client.connection.is_done(tape) {
            client.drains(now);
            self.watches_no_more(client);
        } else if matches!(client.connection.doing, Doing::WatchesAll(told) if told != self.list.changes)
        {
            // It is sent with the others what has changed while that was written.
            self.list.told = 0;
        }
        Ok(self.reads_on(client)?)
    }

    /// The tape of the board that a client watches, if it watches one.
    fn tape_of(&self, client: &Client) -> Option<&Tape> {
        match &client.connection.doing {
            Doing::Watches(watching) => Some(&self.audiences.get(watching.audience)?.tape),
            _ => None,
        }
    }

    /// Puts the changes of the boards into the output of a client that watches them all, if everything before is written. So a client whose
    /// connection takes it slowly is not sent what is out of date. The last ones are put there in any case, but never behind a close.
    fn put_changes(&self, client: &mut Client, are_last: bool) -> Result<(), AllocError> {
        let changes = self.list.changes;
        let connection = &mut client.connection;
        if let Doing::WatchesAll(told) = connection.doing {
            let may_add = are_last && !connection.is_leaving || connection.has_no_output();
            if told != changes && may_add {
                self.list.put_changes(told, &mut connection.output)?;
                connection.doing = Doing::WatchesAll(changes);
            }
        }
        Ok(())
    }

    /// A client that was not heard until what it is owed is written is heard again. Its unfinished message has its time from now on.
    fn reads_on(&mut self, client: &mut Client) -> Result<(), AllocError> {
        if client.connection.is_owed_first() || !client.is_full {
            return Ok(());
        }
        client.is_full = false;
        let (now, is_midway) = (self.now(), client.connection.peer.is_midway());
        client.deadlines.is_heard_again(now, is_midway);
        self.stands_unread(client)
    }

    // ---- As time passes.

    /// Does what is due for a client by the second `now`.
    #[tactic(auto, unfolding(relay_frames::specs::Codes::may_be_sent))]
    pub(crate) fn look_at(&mut self, client: &mut Client, now: u64) -> Result<(), Gone> {
        let (stage, most_idle) = (client.stage(), self.port.most_idle);
        let deadlines = &mut client.deadlines;
        match deadlines.verdict(&Times::WATCH_PORT, now, stage, most_idle) {
            Verdict::Stays => Ok(()),
            Verdict::Ping => {
                outgoing::ping(b"", &mut client.connection.output)?;
                self.send(client)
            }
            Verdict::Tries => self.send(client),
            Verdict::Idle => self.close(client, Code::AWAY),
            Verdict::Stuck => self.close(client, Code::POLICY),
            Verdict::Gone => Err(Gone),
        }
    }

    /// Serving ends: a client that asks for nothing is told so, and so is one that watches a board whose game goes on.
    #[tactic(auto, unfolding(relay_frames::specs::Codes::may_be_sent))]
    pub(crate) fn tell_of_the_end(&mut self, client: &mut Client) -> Result<(), Gone> {
        match client.stage() {
            Stage::Comes => Err(Gone),
            Stage::Asks => self.close(client, Code::AWAY),
            Stage::Follows if !self.tape_of(client).is_some_and(|tape| tape.is_over()) => {
                self.put_changes(client, true)?;
                self.close(client, Code::AWAY)
            }
            Stage::Follows | Stage::Leaves | Stage::Drains => Ok(()),
        }
    }

    /// Closes a client's connection with a code.
    fn close(&mut self, client: &mut Client, code: Code) -> Result<(), Gone> {
        if client.connection.is_leaving {
            return Ok(());
        }
        client.connection.close(code)?;
        self.send(client)
    }
}
