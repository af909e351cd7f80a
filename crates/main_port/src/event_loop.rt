//! The turns of the loop.

ghost use Rattle.std.specs.Prelude.{◌≡◌, ◌≤◌, ◌+◌, false, true, Some, IfErr, IfOk, IfSome, is_err, is_some};
ghost use Rattle.main_port.specs.Meeting.{IsOfTheSame, has_failed};

use crate::acceptor::Acceptor;
use crate::clients::Clients;
use crate::serve_end::ServeEnd;
use crate::watchers::Watchers;
use server_loop::{MOST_EVENTS, Poller};
use std::io;
use std::sync::Wait;
use std::thread::sleep;
use std::time::{Clock, Duration};

/// How long, in milliseconds, the loop pauses if the system cannot be asked.
const PAUSE_MILLIS: u64 = 20;

/// How many milliseconds a turn waits at most.
const TURN_MILLIS: u64 = 500;

/// How many milliseconds it waits at most while those who watch have yet to be told something.
const UNTOLD_MILLIS: u64 = 5;

/// After how many milliseconds the hall is told the time at the latest.
const TICK_MILLIS: u64 = 1000;

/// How many milliseconds later it is told at the most, while there is somebody to be heard first.
const MOST_LATE_MILLIS: u64 = 1000;

/// How many milliseconds connections have to leave once serving is to end.
const MOST_LEAVING_MILLIS: u64 = 4000;

/// The loop. In a turn it reads and answers who is due, sends the answers, and pushes the moves of boards that have changed; then it tells
/// the time and accepts newcomers.
#[derive(Drop)]
pub(crate) struct EventLoop<'a, R, W> {
    clients: Clients<'a, R, W>,
    acceptor: Acceptor<'a>,
    /// Whether boards are kept in a journal: without one serving does not fail.
    has_journal: bool,
    /// Everything that connections had sent by this millisecond was reported.
    reported_by: u64,
    /// Everything that connections had sent by this millisecond has been heard.
    heard_by: u64,
    /// The millisecond at which the hall is told the time next.
    ticks_at: u64,
    /// Since which millisecond it was to be told the time, if there was somebody to be heard first.
    late_since: Option<u64>,
    /// Whether nobody can come back any more.
    is_shut: bool,
    /// The millisecond in which the loop ends even if connections remain, once serving is to end.
    ends_at: Option<u64>,
}

impl<'a, R: Wait + Clock, W: Watchers> EventLoop<'a, R, W> {
    /// The loop that serves these connections, and whoever comes in here.
    pub(crate) fn new(clients: Clients<'a, R, W>, acceptor: Acceptor<'a>) -> EventLoop<'a, R, W>
        ensures acceptor { result.acceptor ≡ acceptor.entry }
        ensures journal { result.has_journal ≡ is_some clients.entry.common.service.scribe }
    {
        EventLoop {
            has_journal: clients.common.service.has_journal(),
            clients,
            acceptor,
            reported_by: 0,
            heard_by: 0,
            ticks_at: 0,
            late_since: None,
            is_shut: false,
            ends_at: None,
        }
    }

    /// Turns until the end. Returns how that was, or why the journal failed, and those who watch.
    pub(crate) fn run(mut self, poller: &mut Poller) -> (io::Result<ServeEnd>, W)
        ensures most { IfOk result.0 (λ end. IfSome self.entry.acceptor.most (λ n. end.served + end.failed ≤ n)) }
        ensures all { self.entry.acceptor.may_end ≡ false
            → IfOk result.0 (λ end. IfSome self.entry.acceptor.most (λ n. end.served + end.failed ≡ n)) }
        ensures failed { IfErr result.0 (λ error. self.entry.has_journal ≡ true) }
    {
        let rt = self.clients.common.rt;
        for _ in rt.forever() {
            if poller.wait(self.patience()).is_err() {
                let _ = sleep(rt, Duration::from_millis(PAUSE_MILLIS));
            }
            if self.take(poller) {
                return self.end();
            }
        }
        unreachable!()
    }

    /// How long the next turn waits at most.
    fn patience(&self) -> Duration {
        if self.clients.has_due() || self.clients.is_looking() {
            return Duration::ZERO;
        }
        let now = self.clients.now();
        let told = if self.clients.common.are_told {
            TURN_MILLIS
        } else {
            UNTOLD_MILLIS
        };
        // There may be somebody to be heard before the hall is told the time.
        let ticks = self.ticks_at.saturating_sub(now).max(1);
        let ends = self.ends_at.unwrap_or(u64::MAX).saturating_sub(now);
        let accepts = self.acceptor.accepts_in(now).unwrap_or(u64::MAX);
        let pauses = self.clients.common.backoff.next_in(now);
        // The system waits in whole milliseconds, and this one has begun.
        let pauses = pauses.unwrap_or(u64::MAX).saturating_add(1);
        Duration::from_millis(told.min(ticks).min(ends).min(accepts).min(pauses))
    }

    /// Tells the hall the time, once a second and when boards have waited long enough. Boards that begin to wait meanwhile do so for a
    /// second at least. However long the program was suspended, whoever came back in time is heard before, if that takes no longer than a
    /// second, and the time that is told is the one by which all has been heard.
    ///
    /// Once serving is to end, and a journal keeps the boards, none of them ends for having waited: nobody can come back before the next
    /// start.
    fn tick(&mut self)
        ensures same { self.new.acceptor ≡ self.old.acceptor }
        ensures journal { self.new.has_journal ≡ self.old.has_journal }
    {
        let now = self.clients.now();
        if now < self.ticks_at {
            return;
        }
        if self.has_journal && self.ends_at.is_some() {
            self.ticks_at = now.saturating_add(TICK_MILLIS);
            return;
        }
        let since = self.late_since.unwrap_or(now);
        // Nobody is waiting to be accepted, and all has been heard that had come by then, also from those that were accepted since.
        let has_heard_all = self.acceptor.accepts_in(now).is_none()
            && self.heard_by >= self.ticks_at.max(self.acceptor.heard_from());
        let heard = if has_heard_all {
            self.heard_by
        } else if now.saturating_sub(since) >= MOST_LATE_MILLIS {
            since
        } else {
            self.late_since = Some(since);
            return;
        };
        self.late_since = None;
        let next = match self.clients.tick(heard) {
            Some(due) => due.saturating_sub(heard).clamp(1, TICK_MILLIS),
            None => TICK_MILLIS,
        };
        self.ticks_at = heard.saturating_add(next);
    }

    /// Handles what the system reported, and what is due. Returns whether it was the last turn. None is while newcomers come in, unless the
    /// journal has failed: nobody can be told anything any more.
    fn take(&mut self, poller: &Poller) -> bool
        ensures same { IsOfTheSame self.old.acceptor self.new.acceptor }
        ensures last { result ≡ true → has_failed self.new.has_journal self.new.clients.common.journal_failure ≡ false
            → self.new.acceptor.is_open ≡ false }
        ensures failed { has_failed self.new.has_journal self.new.clients.common.journal_failure ≡ true → result ≡ true }
        ensures journal { self.new.has_journal ≡ self.old.has_journal }
    {
        let rt = self.clients.common.rt;
        let asked = self.clients.now();
        // This comes before looking: whoever wakes the loop from now on wakes it again.
        poller.waker.reset();
        self.clients.common.clock.look(rt);
        // What the system reports now may have come right after it was asked the time before, or earlier if it left something out then.
        if self.clients.note(&poller.events, self.reported_by) {
            self.acceptor.looks();
        }
        let told = poller.events.iter().count();
        self.clients.end_pauses();
        self.clients.serve_all();
        if told < MOST_EVENTS {
            // The system has reported everything that had arrived when it was asked.
            self.reported_by = asked;
            let since = self.clients.common.queue.since().unwrap_or(asked);
            self.heard_by = self.heard_by.max(since.min(asked));
        }
        self.tick();
        self.acceptor
            .accept(&mut self.clients, poller.poll.registry(), told);
        // However long a turn took, or the program was suspended, nobody is dropped for what it had sent in time.
        if self.clients.look_around(self.heard_by) {
            // An accept that failed is tried again.
            self.acceptor.looks();
        }
        let is_over = self.ends_if_over();
        // Boards may have ended by themselves since the answers were sent.
        self.clients.common.wake_watchers();
        is_over || self.has_journal && self.clients.common.journal_failure.is_some()
    }

    // ---- The end.

    /// Does what is due at the end. Returns whether that is over. Once serving is to end, all boards are ended, or kept, connections are
    /// told, and then waited for.
    fn ends_if_over(&mut self) -> bool
        ensures same { IsOfTheSame self.old.acceptor self.new.acceptor }
        ensures over { result ≡ true → self.new.acceptor.is_open ≡ false }
        ensures journal { self.new.has_journal ≡ self.old.has_journal }
    {
        let rt = self.clients.common.rt;
        if !self.acceptor.closes_if_over(rt) {
            return false;
        }
        let is_ending = self.acceptor.is_ending();
        if !self.is_shut && (is_ending || self.clients.common.coming == 0) {
            self.is_shut = true;
            self.clients.shut();
        }
        let now = self.clients.now();
        if is_ending && self.ends_at.is_none() {
            self.clients.end_all();
            self.ends_at = Some(now.saturating_add(MOST_LEAVING_MILLIS));
        }
        self.clients.each.is_empty() || now >= self.ends_at.unwrap_or(u64::MAX)
    }

    /// How serving ended, or why the journal failed, and those who watch.
    fn end(self) -> (io::Result<ServeEnd>, W)
        ensures met { IfOk result.0 (λ end. end ≡ self.entry.acceptor.met) }
        ensures most { IfOk result.0 (λ end. IfSome self.entry.acceptor.most (λ n. end.served + end.failed ≤ n)) }
        ensures failed { is_err result.0 ≡ has_failed self.entry.has_journal self.entry.clients.common.journal_failure }
        ensures reason { IfErr result.0 (λ error. self.entry.clients.common.journal_failure ≡ Some error) }
        ensures all { (has_failed self.entry.has_journal self.entry.clients.common.journal_failure ≡ false → self.entry.acceptor.is_open ≡ false)
            → self.entry.acceptor.may_end ≡ false
            → IfOk result.0 (λ end. IfSome self.entry.acceptor.most (λ n. end.served + end.failed ≡ n)) }
    {
        let EventLoop {
            acceptor,
            clients,
            has_journal,
            ..
        } = self;
        let (failure, watchers) = clients.end();
        let met = match failure {
            Some(error) if has_journal => Err(error),
            _ => Ok(acceptor.end()),
        };
        (met, watchers)
    }
}
