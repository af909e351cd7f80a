//! What is due as time passes.

use super::Clients;
use crate::common::Common;
use crate::watchers::Watchers;
use std::mem;
use std::sync::Wait;
use std::time::Clock;

/// How many connections are looked at in a turn. The others are in the next turns.
const MOST_LOOKED_AT: u32 = 64;

/// For how many microseconds they are looked at in a turn: one that takes all the moves that are left to it may take long.
const MOST_LOOKING_MICROS: u64 = 100;

/// After how many milliseconds each connection is looked at again.
const MOST_UNLOOKED_MILLIS: u64 = 500;

impl<'a, R: Wait + Clock, W: Watchers> Clients<'a, R, W> {
    /// Connections that have paused are read again.
    pub(crate) fn end_pauses(&mut self) {
        let now = self.common.clock.millis();
        for _ in 0..u64::MAX {
            let Some(number) = self.common.backoff.take(now) else {
                return;
            };
            self.attend(number, Common::ends_pause);
        }
    }

    // ---- Twice a second.

    /// Whether some have yet to be looked at in this round.
    pub(crate) fn is_looking(&self) -> bool {
        self.unlooked > 0
    }

    /// Looks at each connection twice a second, at some of them in each turn. All that they had sent by the millisecond `now` has been
    /// heard. Returns whether a round of it begins.
    pub(crate) fn look_around(&mut self, now: u64) -> bool {
        let begins = !self.is_looking()
            && now.saturating_sub(self.looked_at) >= MOST_UNLOOKED_MILLIS;
        if begins {
            self.looked_at = now;
            self.unlooked = self.each.len();
            let common = &mut self.common;
            let boards = common.service.hall().len();
            let followers = common.boards.total();
            common.log.counts(self.unlooked, followers, boards);
        }
        let looked_at = self.looked_at;
        let until = self.common.time_for(MOST_LOOKING_MICROS);
        for _ in 0..MOST_LOOKED_AT {
            if !self.is_looking() || self.common.is_late(until) {
                break;
            }
            // The last of them. If one goes, the last of all takes its place, which has been looked at.
            self.unlooked = self.unlooked.saturating_sub(1);
            if let Some(number) = self.number_at(self.unlooked) {
                self.attend(number, |common, client| common.look_at(client, looked_at));
            }
        }
        begins
    }

    /// The number of the connection that has this place among all.
    fn number_at(&self, index: usize) -> Option<u64> {
        let (number, _) = self.each.get_index(index)?;
        Some(*number)
    }

    // ---- The time, and the end.

    /// The time is this millisecond of the loop: boards that have waited until then are ended. Returns when the next ones are, if any wait.
    pub(crate) fn tick(&mut self, millis: u64) -> Option<u64> {
        self.common.service.looks_for_room();
        self.common.service.tick(millis);
        let next = self.common.service.hall().next_due();
        self.notes_all();
        next
    }

    /// Nobody can come back any more: boards that wait are ended, unless a journal keeps them for the next start.
    pub(crate) fn shut(&mut self) {
        if !self.common.service.has_journal() {
            self.common.service.shut();
            self.notes_all();
        }
    }

    /// Serving ends: so do all boards, unless a journal keeps them for the next start. Connections are told.
    pub(crate) fn end_all(&mut self) {
        if !self.common.service.has_journal() {
            self.common.service.end_all();
            self.notes_all();
        }
        self.common.watchers.has_ended();
        for index in (0..self.each.len()).rev() {
            if let Some(number) = self.number_at(index) {
                self.attend(number, Common::tell_of_the_end);
            }
        }
    }

    /// Notes what became of the boards by themselves. Those leave who were to leave behind that.
    fn notes_all(&mut self) {
        self.common.gather();
        let none = Vec::new(self.common.alloc);
        for number in mem::replace(&mut self.common.late, none) {
            if self.each.contains_key(&number) {
                self.attend(number, |common, client| {
                    common.leaves_hall(client.number(), Some(client));
                    Ok(())
                });
            } else if self.common.leaves_hall(number, None) {
                self.common.service.disconnect(number);
            }
        }
    }
}
