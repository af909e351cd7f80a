//! What all connections share: the service, who is due a turn, who follows which board, those who watch, the log and the clock. What is
//! done here for a connection can reach no other.

ghost use Rattle.std.specs.Prelude.{◌≡◌, None};
ghost use Rattle.main_port.specs.Others.{but_for_turns};

mod changes;
mod committing;
mod looking;
mod reading;
mod writing;

use crate::board_log::BoardLog;
use crate::boards::Boards;
use crate::client::{Client, Role};
use crate::settings::Settings;
use crate::watchers::Watchers;
use chained_lines::StableFile;
use relay_durable::DurableService;
use server_loop::{Backoff, Log, LoopClock, Rank, RunQueue};
use std::alloc::Global;
use std::io;
use std::sync::Wait;
use std::time::{Clock, Duration};

/// What all connections share.
#[derive(Drop)]
pub(crate) struct Common<'a, R, W> {
    pub(crate) rt: &'a R,
    pub(crate) alloc: Global,
    pub(crate) service: DurableService<StableFile>,
    pub(crate) queue: RunQueue,
    pub(crate) backoff: Backoff,
    pub(crate) boards: Boards,
    pub(crate) watchers: W,
    /// Whether those who watch were told all.
    pub(crate) are_told: bool,
    /// Why the journal of the boards failed, if it has: nothing is sent or told any more.
    pub(crate) journal_failure: Option<io::Error>,
    /// How many microseconds the last commit took.
    commit_micros: u64,
    pub(crate) log: BoardLog<'a, R>,
    pub(crate) clock: LoopClock,
    /// Those that have left while boards had waited long enough and had yet to be ended: they leave once these are.
    pub(crate) late: Vec<u64>,
    /// How many have yet to shake hands.
    pub(crate) coming: u64,
    settings: Settings,
    /// All that the system reports now has come since this millisecond.
    pub(crate) since: u64,
}

impl<'a, R: Wait + Clock, W: Watchers> Common<'a, R, W> {
    /// Nobody shares it yet.
    pub(crate) fn new(
        rt: &'a R,
        alloc: Global,
        service: DurableService<StableFile>,
        settings: &Settings,
        boards: Boards,
        clock: LoopClock,
        watchers: W,
        log: &'a Log,
    ) -> Common<'a, R, W>
        ensures service { result.service ≡ service }
        ensures sound { result.journal_failure ≡ None }
    {
        Common {
            rt,
            alloc,
            service,
            queue: RunQueue::new(alloc),
            backoff: Backoff::new(alloc),
            boards,
            watchers,
            // Boards that outlived the last process may have yet to be told.
            are_told: false,
            journal_failure: None,
            commit_micros: 0,
            log: BoardLog::new(rt, log),
            clock,
            late: Vec::new(alloc),
            coming: 0,
            settings: *settings,
            since: 0,
        }
    }

    /// Gives a connection a turn, only once however much there is. Without memory for that it has its turn when it is looked at next.
    pub(crate) fn stands_due(&mut self, client: &mut Client)
        ensures { but_for_turns client.new ≡ but_for_turns client.old }
    {
        if client.is_queued {
            return;
        }
        let rank = match client.role {
            Role::Owner(at) if self.boards.shares_turn(at) => Rank::Sibling,
            Role::Owner(_) => Rank::Owner,
            Role::Follower(_) => Rank::Follower,
            Role::Other => Rank::Other,
        };
        self.stands_due_as(client, rank);
    }

    /// Gives a connection a turn of this rank.
    pub(crate) fn stands_due_as(&mut self, client: &mut Client, rank: Rank)
        ensures { but_for_turns client.new ≡ but_for_turns client.old }
    {
        if client.is_queued {
            return;
        }
        client.is_queued = self.queue.add(client.number(), rank, self.since).is_ok();
        if rank == Rank::Follower && client.is_queued {
            self.boards.is_due();
        }
    }

    /// Until when a slice of this many microseconds lasts that begins now.
    pub(crate) fn time_for(&mut self, micros: u64) -> Duration {
        self.clock.look(self.rt);
        let passed = self.clock.passed();
        passed.saturating_add(Duration::from_micros(micros))
    }

    /// Whether it is this late.
    pub(crate) fn is_late(&mut self, until: Duration) -> bool {
        self.clock.look(self.rt);
        self.clock.passed() >= until
    }
}
