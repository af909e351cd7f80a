//! The connections that are not read for a moment, because they were refused to follow.

ghost use Rattle.std.specs.Prelude.{◌≡◌, ◌-◌, ◌+◌, ◌≤◌, [], IfNone, IfSome, IsNone, ◌↔◌, OnErr, OnOk};
ghost use Rattle.std.specs.BTreeSet.{insert_key};
ghost use Rattle.std.specs.List.{All};
ghost use Rattle.server_loop.specs.Backoff.{HasPaused, LastUntil, end_of, order, start_of};

use std::alloc::{AllocError, Global};
use std::collections::BTreeSet;
use std::marker::Model;

/// For how many milliseconds a connection is not read after a refused command to follow. One that asks again and again would otherwise
/// take a processor.
const PAUSE_MILLIS: u64 = 20;

/// For how many milliseconds at most it is not read, however many such commands came in one piece.
const MOST_PAUSE_MILLIS: u64 = 500;

/// Over how many milliseconds the beginnings of pauses are spread.
const SPREAD_MILLIS: u64 = 16;

/// A connection that pauses, and the millisecond at which that is over. Of two pauses the one that is over first comes first.
#[derive(Clone, Copy, PartialEq, Eq, PartialOrd, Ord, Drop)]
pub struct Pause {
    pub until: u64,
    pub key: u64,
}

/// The connections that pause, in the order in which their pauses are over. One that pauses twice until the same millisecond stands here
/// once.
#[derive(Drop)]
pub struct Backoff {
    pauses: BTreeSet<Pause>,
}

impl Model for Backoff {
    ghost use Rattle.std.specs.Prelude.{List};
    ghost use Rattle.server_loop.specs.declared.backoff.Pause.{Pause};

    ghost Value = { List Pause };

    ghost view = { λ a. a.pauses.keys };
}

impl Backoff {
    /// None pauses.
    pub fn new(alloc: Global) -> Backoff
        ensures { result ≡ [] }
    {
        Backoff {
            pauses: BTreeSet::new(alloc),
        }
    }

    /// A connection pauses from this millisecond on, in which it has been refused to follow this many times since it was last read.
    ///
    /// # Errors
    ///
    /// There was no memory.
    pub fn add(&mut self, key: u64, now: u64, refused: u32) -> Result<(), AllocError>
        ensures ok { OnOk result (self.new ≡ insert_key order self.old (record { until = end_of (start_of now key) refused; key = key })) }
        ensures err { OnErr result (self.new ≡ self.old) }
    {
        // Some begin later than others. Else the pauses of a crowd that asks again and again would all be over at once, and its answers
        // would keep the processors for that long.
        let since = now.saturating_add(key % SPREAD_MILLIS);
        let pause = (u64::from(refused) * PAUSE_MILLIS).min(MOST_PAUSE_MILLIS);
        // The millisecond that had begun does not count.
        let until = since.saturating_add(pause).saturating_add(1);
        self.pauses.insert(Pause { until, key })?;
        Ok(())
    }

    /// In how many milliseconds the next pause is over, if any connection pauses.
    pub fn next_in(&self, now: u64) -> Option<u64>
        ensures none { IsNone result ↔ (self.now ≡ []) }
        ensures soon { IfSome result (λ millis. All (λ r. millis ≤ r.until - now) self.now) }
    {
        Some(self.pauses.first()?.until.saturating_sub(now))
    }

    /// Takes a connection whose pause is over, if there is one.
    pub fn take(&mut self, now: u64) -> Option<u64>
        ensures rested { IfSome result (λ key. HasPaused self.old now key self.new) }
        ensures none { IfNone result (LastUntil (now + 1) self.old) }
        ensures unchanged { IfNone result (self.new ≡ self.old) }
    {
        if self.pauses.first()?.until > now {
            return None;
        }
        Some(self.pauses.pop_first()?.key)
    }
}
