//! All boards of a relay, for connections that watch them all: the text of each, and when it last changed.

use crate::board_event::Progress;
use crate::board_table::BoardTable;
use indexmap::IndexSet;
use relay_frames::outgoing;
use relay_messages::encode_board;
use std::alloc::{AllocError, Global};

/// All boards, in the order of opening. Each change of a text has a number, and the numbers rise.
#[derive(Drop)]
pub(crate) struct BoardList {
    alloc: Global,
    entries: Vec<Entry>,
    /// The number of the last change. That there are no boards yet is the first.
    pub(crate) changes: u64,
    /// The keys of those that watch all boards.
    pub(crate) spectators: IndexSet<usize>,
    /// The number of the last change of which they were told. It is 0 if one of them that was not is sent it with the others.
    pub(crate) told: u64,
}

/// What is sent of a board.
#[derive(Drop)]
struct Entry {
    /// How far the board was when its text was made.
    made_of: Progress,
    /// In which second that was.
    made_at: u64,
    /// The frame of its text.
    frame: Vec<u8>,
    /// The number of its last change.
    change: u64,
}

impl BoardList {
    /// No boards are known yet.
    pub(crate) fn new(alloc: Global) -> BoardList {
        BoardList {
            alloc,
            entries: Vec::new(alloc),
            changes: 1,
            spectators: IndexSet::new(alloc),
            told: 0,
        }
    }

    /// If there are spectators, adds the boards that were opened, and makes the texts that are due again. If any has changed since the
    /// spectators were told, they are added to `untold`. The next call does what is missing for want of memory.
    pub(crate) fn refresh(
        &mut self,
        boards: &BoardTable,
        now: u64,
        untold: &mut Vec<usize>,
    ) -> Result<(), AllocError> {
        if self.spectators.is_empty() {
            return Ok(());
        }
        let made = self.make_texts(boards, now);
        if self.told != self.changes {
            untold.extend_from_slice(self.spectators.as_slice())?;
            self.told = self.changes;
        }
        made
    }

    /// Adds the boards that were opened, and makes the texts that are due again. The next call does what is missing for want of memory.
    pub(crate) fn make_texts(&mut self, boards: &BoardTable, now: u64) -> Result<(), AllocError> {
        (0..boards.len()).try_for_each(|at| self.make_text(at, boards, now))
    }

    /// Makes the text of the board of this index, if there is none yet or it is due again.
    fn make_text(&mut self, at: usize, boards: &BoardTable, now: u64) -> Result<(), AllocError> {
        let Some(board) = boards.board(at) else {
            return Ok(());
        };
        let (moves, is_over) = (board.game.len(), board.outcome.is_some());
        let made_of = Progress { moves, is_over };
        // News of a game that goes on waits for the next second.
        let stays = |entry: &Entry| entry.made_of == made_of || entry.made_at >= now && !is_over;
        if self.entries.get(at).is_some_and(stays) {
            return Ok(());
        }
        let text = encode_board(self.alloc, &board.summary())?;
        let mut frame = Vec::new(self.alloc);
        outgoing::text(text.as_str(), &mut frame)?;
        let change = self.changes.saturating_add(1);
        let entry = Entry {
            made_of,
            made_at: now,
            frame,
            change,
        };
        match self.entries.get_mut(at) {
            Some(earlier) => *earlier = entry,
            None => self.entries.push(entry)?,
        }
        self.changes = change;
        Ok(())
    }

    /// Appends the frames that changed after this number to `output`, or nothing for want of memory.
    pub(crate) fn put_changes(&self, after: u64, output: &mut Vec<u8>) -> Result<(), AllocError> {
        let changed = self.entries.iter().filter(|entry| entry.change > after);
        let length = changed.fold(0usize, |sum, entry| sum.saturating_add(entry.frame.len()));
        output.reserve(length)?;
        for entry in self.entries.iter().filter(|entry| entry.change > after) {
            output.extend_from_slice(entry.frame.as_slice())?;
        }
        Ok(())
    }
}
