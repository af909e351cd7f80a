//! What happens to boards, for the log.

use c960_game::MOST_BOARDS;
use relay_hall::{Hall, Key};
use server_loop::{Counts, Log, LogLine};
use std::sync::Wait;

/// The log, as far as it tells of boards. Where none is kept nothing is looked for.
#[derive(Drop)]
pub(crate) struct BoardLog<'a, R> {
    rt: &'a R,
    log: &'a Log,
    counts: Counts,
    /// Whether the log was told that the board of an index waits for its operator, and not that it is back.
    waits: [bool; MOST_BOARDS as usize],
}

impl<'a, R: Wait> BoardLog<'a, R> {
    /// Nothing has happened yet.
    pub(crate) fn new(rt: &'a R, log: &'a Log) -> BoardLog<'a, R> {
        BoardLog {
            rt,
            log,
            counts: Counts::default(),
            waits: [false; MOST_BOARDS as usize],
        }
    }

    /// The board of this index was opened.
    pub(crate) fn opened(&self, hall: &Hall, at: usize) {
        if let Some(shown) = hall.board(at) {
            self.log.note(self.rt, LogLine::Opened(shown.name()));
        }
    }

    /// The game of the board of this index has changed: if it has ended, that is noted.
    pub(crate) fn ended(&mut self, hall: &Hall, at: usize) {
        if !self.log.is_kept() {
            return;
        }
        let Some(shown) = hall.board(at) else {
            return;
        };
        if let Some(outcome) = shown.outcome() {
            self.counts.ended = self.counts.ended.saturating_add(1);
            let line = LogLine::Ended(shown.name(), outcome);
            self.log.note(self.rt, line);
        }
    }

    /// A follower of the board of this index was cut off.
    pub(crate) fn cut(&mut self, hall: &Hall, at: usize) {
        if let Some(shown) = hall.board(at) {
            self.counts.cut = self.counts.cut.saturating_add(1);
            self.log.note(self.rt, LogLine::Cut(shown.name()));
        }
    }

    /// A connection with this key has come or left: of each board of the key whose game goes on it is noted that it waits now, or does no
    /// more.
    pub(crate) fn came_or_left(&mut self, hall: &Hall, key: &Key) {
        if !self.log.is_kept() {
            return;
        }
        let waits = hall.waits(key);
        for (at, has_waited) in self.waits.iter_mut().enumerate() {
            let Some(shown) = hall.board(at) else {
                return;
            };
            if *has_waited == waits || !shown.belongs_to(key) {
                continue;
            }
            *has_waited = waits;
            match shown.outcome() {
                Some(_) => {}
                None if waits => self.log.note(self.rt, LogLine::Waits(shown.name())),
                None => self.log.note(self.rt, LogLine::IsBack(shown.name())),
            }
        }
    }

    /// So many connections there are, so many of them follow, and so many boards.
    pub(crate) fn counts(&mut self, connections: usize, followers: u64, boards: usize) {
        self.counts.connections = connections as u64;
        self.counts.followers = followers;
        self.counts.boards = boards as u64;
        self.log.counts(self.rt, self.counts);
    }
}
