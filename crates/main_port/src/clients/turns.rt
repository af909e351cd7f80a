//! Whose turn it is, and when answers are sent.

ghost use Rattle.std.specs.Prelude.{◌≡◌};
ghost use Rattle.main_port.specs.Others.{AllStay};

use super::Clients;
use crate::client::Client;
use crate::common::Common;
use crate::watchers::Watchers;
use c960_game::MOST_BOARDS;
use mio::{Events, Token};
use server_loop::{LISTENER, Rank, WAKER};
use std::sync::Wait;
use std::thread::yield_now;
use std::time::Clock;

/// For how many microseconds those that follow a board are served in a turn. An owner whose move comes meanwhile waits for that.
const MOST_FOLLOWERS_MICROS: u64 = 60;

/// For how many microseconds connections that neither own nor follow a board are served in a turn, and newcomers accepted: about as long as
/// one of them takes, so that an owner whose move comes meanwhile hardly waits for more than that one.
pub(crate) const MOST_OTHERS_MICROS: u64 = 20;

impl<'a, R: Wait + Clock, W: Watchers> Clients<'a, R, W> {
    // ---- Who is due one.

    /// Notes what the system reported, all of which has come since this millisecond: who is due a turn. Returns whether newcomers are
    /// waiting.
    pub(crate) fn note(&mut self, events: &Events, since: u64) -> bool {
        self.common.since = since;
        let mut has_newcomers = false;
        for event in events.iter() {
            match event.token() {
                LISTENER => has_newcomers = true,
                WAKER => {}
                Token(number) => {
                    if let Some(client) = self.each.get_mut(&(number as u64)) {
                        client.is_reported(event.is_readable(), event.is_read_closed());
                        self.common.stands_due(client);
                    }
                }
            }
        }
        has_newcomers
    }

    /// Those who follow a board that has changed are due a turn. Whoever changed it is answered before: a thousand take as long as half an
    /// answer.
    pub(super) fn spreads_changes(&mut self)
        ensures { AllStay self.old.each.entries self.new.each.entries }
    {
        for _ in 0..MOST_BOARDS {
            let Some(at) = self.common.boards.take_changed() else {
                return;
            };
            self.spreads_change(at);
        }
    }

    /// Those who follow this board, and whose connections take what is due, are due a turn.
    fn spreads_change(&mut self, at: usize)
        ensures { AllStay self.old.each.entries self.new.each.entries }
    {
        for index in 0..self.common.boards.count(at) {
            let Some(number) = self.common.boards.number(at, index) else {
                break;
            };
            if let Some(client) = self.each.get_mut(&number) {
                if !client.is_blocked() {
                    self.common.stands_due_as(client, Rank::Follower);
                }
            }
        }
        self.common.boards.are_due(at);
    }

    /// Whether any is due a turn.
    pub(crate) fn has_due(&self) -> bool {
        !self.common.queue.is_empty() || self.common.boards.has_changed()
    }

    // ---- Who has one.

    /// Gives those a turn that are due one, owners before followers before others, as long as there is time for each: the rest have theirs
    /// next time. Behind the owners the loop yields if there are others: an owner that was just answered, or a proxy before it, may wait
    /// for this processor.
    pub(crate) fn serve_all(&mut self) {
        let queue = &self.common.queue;
        let has_owners = queue.len(Rank::Owner) > 0 || queue.len(Rank::Sibling) > 0;
        self.serve_owners();
        self.common.wake_watchers();
        if has_owners && self.has_due() {
            yield_now();
        }
        self.spreads_changes();
        self.serve_rank(Rank::Follower, MOST_FOLLOWERS_MICROS);
        self.serve_rank(Rank::Other, MOST_OTHERS_MICROS);
        self.common.wake_watchers();
    }

    /// Gives those a turn that own boards: one of each key, then, for half as long, the others. So nobody waits for all connections of
    /// another key. With a journal what all of them did is on the disk at once.
    fn serve_owners(&mut self) {
        self.common.boards.begins_turn();
        let most = self.common.most_owners_micros();
        self.serve(Rank::Owner, most);
        if !self.common.service.has_journal() {
            self.send_answers();
        }
        self.serve_rank(Rank::Sibling, most / 2);
    }

    /// Gives those of a rank a turn that are due one, and sends what they are answered.
    fn serve_rank(&mut self, rank: Rank, most_micros: u64) {
        self.serve(rank, most_micros);
        self.send_answers();
    }

    /// Gives those of a rank a turn that are due one, as long as there is time for that. One that becomes due meanwhile waits.
    fn serve(&mut self, rank: Rank, most_micros: u64) {
        let until = self.common.time_for(most_micros);
        for _ in 0..self.common.queue.len(rank) {
            let Some(number) = self.common.queue.take(rank) else {
                break;
            };
            if rank == Rank::Follower && !self.each.get(&number).is_some_and(Client::follows) {
                // An owner that waited for its followers: those before it have their moves before it makes another.
                self.send_answers();
            }
            self.attend(number, Common::takes_turn);
            self.queues_answers(number);
            if self.common.is_late(until) {
                break;
            }
        }
    }

    // ---- What they are answered.

    /// A connection had its turn, and has yet to be sent its answers. They are sent for some connections at once.
    fn queues_answers(&mut self, number: u64) {
        if self.unsent.push(number).is_err() {
            self.send_answers();
            self.attend(number, Common::deliver);
        }
        if self.unsent.len() >= self.common.most_unsent() {
            self.send_answers();
        }
    }

    /// Sends the answers of all that had a turn. What they were told is not taken back from here on: all that has changed is on the disk
    /// before, by one write and one sync, if boards are kept there. If that fails nobody is told anything.
    fn send_answers(&mut self) {
        if !self.common.tell_watchers() {
            return;
        }
        for at in 0..self.unsent.len() {
            let Some(number) = self.unsent.get(at).copied() else {
                break;
            };
            self.attend(number, Common::deliver);
        }
        self.unsent.clear();
    }
}
