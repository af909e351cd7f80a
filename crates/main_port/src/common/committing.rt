//! That all that boards have is on the disk before anybody is told of it, if they are kept in a journal.

ghost use Rattle.std.specs.Prelude.{◌≡◌, false, true, IfSome, Some, is_some};
ghost use Rattle.relay_durable.specs.Record.{is_settled};

use super::Common;
use crate::watchers::Watchers;
use std::sync::Wait;
use std::time::Clock;

/// For how many microseconds those that own a board are served in a turn. The rest are the first of the next turn: without a bound a flood
/// of owners would leave the others one connection for each round of all owners.
const MOST_OWNERS_MICROS: u64 = 500;

/// The same where boards are kept in a journal, at the least and at the most: what all of them did is written and synced at once. So they
/// have twice as long as the last commit took, and the disk is waited for a third of the time.
const OWNERS_WITH_JOURNAL_MICROS: (u64, u64) = (2000, 10_000);

/// How many connections are answered before the answers of all of them are sent.
const MOST_UNSENT: usize = 8;

/// The same where boards are kept in a journal: what all of them did is written and synced at once, which takes as long as many answers.
pub(crate) const MOST_UNSENT_WITH_JOURNAL: usize = 512;

impl<'a, R: Wait + Clock, W: Watchers> Common<'a, R, W> {
    /// Writes and syncs all that boards have got since the last time, by whomever. Returns whether all is on the disk: only then may
    /// anything be sent or told. Without a journal there is nothing to be done.
    ///
    /// It is not tried again once it has failed. The loop then ends behind this turn.
    pub(super) fn commits(&mut self) -> bool
        ensures settled { result ≡ is_settled self.new.service }
        ensures service { self.new.service.service ≡ self.old.service.service }
        ensures failed { result ≡ false → is_some self.new.journal_failure ≡ true }
        ensures once { is_some self.old.journal_failure ≡ true → self.new.service ≡ self.old.service }
        ensures first { IfSome self.old.journal_failure (λ failure. self.new.journal_failure ≡ Some failure) }
    {
        if self.service.is_settled() {
            return true;
        }
        if self.journal_failure.is_none() {
            self.clock.look(self.rt);
            let began = self.clock.passed();
            self.journal_failure = self.service.commit().err();
            self.clock.look(self.rt);
            let took = self.clock.passed().saturating_sub(began).as_micros();
            self.commit_micros = u64::try_from(took).unwrap_or(u64::MAX);
        }
        self.journal_failure.is_none()
    }

    /// How many connections are answered before the answers of all of them are sent.
    pub(crate) fn most_unsent(&self) -> usize {
        if self.service.has_journal() {
            MOST_UNSENT_WITH_JOURNAL
        } else {
            MOST_UNSENT
        }
    }

    /// For how many microseconds those that own a board are served in a turn.
    pub(crate) fn most_owners_micros(&self) -> u64 {
        if self.service.has_journal() {
            let (least, most) = OWNERS_WITH_JOURNAL_MICROS;
            self.commit_micros.saturating_mul(2).max(least).min(most)
        } else {
            MOST_OWNERS_MICROS
        }
    }
}
