//! What is done for a connection as time passes.

use super::Common;
use crate::client::{Client, Ends, Role, State};
use crate::watchers::Watchers;
use relay_service::Stage;
use server_loop::{Stage as Waited, Times, Verdict};
use std::sync::Wait;
use std::time::Clock;

impl<'a, R: Wait + Clock, W: Watchers> Common<'a, R, W> {
    /// Does what is due for a connection by this millisecond.
    pub(crate) fn look_at(&mut self, client: &mut Client, now: u64) -> Result<(), Ends> {
        if client.is_queued {
            // What it is waited for may have come, and have yet to be read.
            return Ok(());
        }
        let waited = self.waited(client);
        let most_idle = self.settings.idle.filter(|_| client.role == Role::Other);
        let deadlines = &mut client.deadlines;
        match deadlines.verdict(&Times::MAIN_PORT, now, waited, most_idle) {
            Verdict::Stays | Verdict::Tries => self.remembers(client),
            Verdict::Ping => {
                self.service.ping(client.number())?;
                self.send(client)
            }
            // It has sent no message for too long. It goes, unless a board belongs to it.
            Verdict::Idle => {
                self.notes_role(client)?;
                if client.role == Role::Other {
                    return self.close(client);
                }
                client.deadlines.begins(now);
                Ok(())
            }
            Verdict::Stuck | Verdict::Gone => Err(Ends::Gone),
        }
    }

    /// What a connection is waited for.
    fn waited(&self, client: &Client) -> Waited {
        match (client.state, self.service.stage(client.number())) {
            (State::Drains(_), _) => Waited::Drains,
            (State::InputClosed, _) | (_, Some(Stage::Leaves) | None) => Waited::Leaves,
            (_, Some(Stage::Comes)) => Waited::Comes,
            (_, Some(Stage::Asks)) => Waited::Asks,
            (_, Some(Stage::Follows)) => Waited::Follows,
        }
    }

    /// Gives a connection the turn for which there was no memory when it became due, if that is so: something has come from it, or it is
    /// behind its board, whose game may be over. One that follows whose connection takes nothing takes no moves, and so does not learn that
    /// it was cut off: if it must have been, it takes everything that is left to it, and its slot on the board is free.
    fn remembers(&mut self, client: &mut Client) -> Result<(), Ends> {
        let (behind, is_over) = self.behind(client.number()).unwrap_or((0, false));
        if client.is_blocked() {
            if behind > u64::from(self.settings.limits.capacity()) {
                self.service.push_all(client.number())?;
                self.notes_role(client)?;
            }
        } else if client.is_read() || client.state == State::Interrupted || behind > 0 || is_over {
            self.stands_due(client);
        }
        Ok(())
    }

    /// How many moves of its board a connection has yet to take, if it follows one, and whether the game is over: once it has taken that,
    /// it follows no more.
    fn behind(&self, number: u64) -> Option<(u64, bool)> {
        let next = self.service.next(number)?;
        let shown = self.service.hall().board(self.service.place(number)?)?;
        let behind = u64::from(shown.plies()).saturating_sub(next);
        Some((behind, shown.outcome().is_some()))
    }

    /// Serving ends: one that asks is told so, and with a journal, whose games go on at the next start, one that follows too.
    pub(crate) fn tell_of_the_end(&mut self, client: &mut Client) -> Result<(), Ends> {
        match self.waited(client) {
            Waited::Comes => Err(Ends::Gone),
            Waited::Asks => self.close(client),
            Waited::Follows if self.service.has_journal() => self.close(client),
            Waited::Follows | Waited::Leaves | Waited::Drains => Ok(()),
        }
    }
}
