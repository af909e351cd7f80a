//! What the loop knows of boards: who follows each, how far it is ahead of them, and how often the connections of one key have their turns.

use c960_game::Limits;
use indexmap::IndexSet;
use std::alloc::{AllocError, Global};
use std::collections::VecDeque;
use std::mem;

/// A board. What is counted of it are its changes since all who follow it had their turn: a round.
#[derive(Drop)]
struct Board {
    /// The numbers of the connections that follow it. One that is behind it is there until it has left it.
    followers: IndexSet<u64>,
    /// How many changes there were.
    changes: u16,
    /// The round is over once this many followers in all have had a turn.
    ends: u64,
    /// In which turn of the loop a connection became due last that owns this board as its first.
    owned: u64,
    /// Whether it has changed, and its followers have yet to be due a turn for that.
    has_changed: bool,
}

/// All boards, by their indexes in the order of opening. Followers whose connections take all have their turns in the order in which they
/// became due. An owner that makes moves faster than all of them have their turns waits for them: else they would be cut off for the
/// slowness of the server.
#[derive(Drop)]
pub(crate) struct Boards {
    each: Vec<Board>,
    /// Those that have changed, each once, in the order in which they did.
    changed: VecDeque<usize>,
    /// How many followers a board may have.
    most_followers: usize,
    /// How many changes there may be in a round: few enough that no queue fills.
    most_changes: u16,
    /// How many turns of followers became due so far.
    due: u64,
    /// How many turns the loop has begun.
    turns: u64,
}

impl Boards {
    /// As many as these limits allow, without followers and changes.
    ///
    /// # Errors
    ///
    /// There was no memory.
    pub(crate) fn new(alloc: Global, limits: &Limits) -> Result<Boards, AllocError> {
        let boards = usize::from(limits.boards());
        let mut each = Vec::with_capacity(alloc, boards)?;
        for _ in 0..boards {
            each.push(Board {
                followers: IndexSet::new(alloc),
                changes: 0,
                ends: 0,
                owned: 0,
                has_changed: false,
            })?;
        }
        Ok(Boards {
            each,
            changed: VecDeque::with_capacity(alloc, boards)?,
            most_followers: usize::from(limits.followers()),
            most_changes: (limits.capacity() / 4).max(1),
            due: 0,
            turns: 1,
        })
    }

    // ---- Who follows them.

    /// Adds a connection that follows this board.
    ///
    /// # Errors
    ///
    /// There was no memory, or there is no such board.
    pub(crate) fn add(&mut self, at: usize, number: u64) -> Result<(), AllocError> {
        let board = self.each.get_mut(at).ok_or(AllocError)?;
        board.followers.insert(number)?;
        Ok(())
    }

    /// Removes a connection that follows this board no more.
    pub(crate) fn remove(&mut self, at: usize, number: u64) {
        if let Some(board) = self.each.get_mut(at) {
            let _ = board.followers.swap_remove(&number);
        }
    }

    /// How many connections follow this board.
    pub(crate) fn count(&self, at: usize) -> usize {
        self.each.get(at).map_or(0, |board| board.followers.len())
    }

    /// Whether as many connections follow this board as may.
    pub(crate) fn is_full(&self, at: usize) -> bool {
        self.count(at) >= self.most_followers
    }

    /// The number of one of those that follow this board.
    pub(crate) fn number(&self, at: usize, index: usize) -> Option<u64> {
        Some(*self.each.get(at)?.followers.get_index(index)?)
    }

    /// How many connections follow some board.
    pub(crate) fn total(&self) -> u64 {
        let counts = self.each.iter().map(|board| board.followers.len() as u64);
        counts.fold(0, u64::saturating_add)
    }

    // ---- Whose turn it is.

    /// The loop begins another turn.
    pub(crate) fn begins_turn(&mut self) {
        self.turns = self.turns.saturating_add(1);
    }

    /// A connection becomes due that owns the board of this index as its first. Returns whether another of its key has in this turn of the
    /// loop.
    pub(crate) fn shares_turn(&mut self, at: usize) -> bool {
        let Some(board) = self.each.get_mut(at) else {
            return false;
        };
        mem::replace(&mut board.owned, self.turns) == self.turns
    }

    /// One more turn of a follower is due.
    pub(crate) fn is_due(&mut self) {
        self.due = self.due.saturating_add(1);
    }

    /// The board of this index has changed, and so many turns of followers wait in all. Returns whether the board is as far ahead of those
    /// who follow it, if any do, as it may be.
    pub(crate) fn changes(&mut self, at: usize, waiting: usize) -> bool {
        let had_turns = self.due.saturating_sub(waiting as u64);
        let Some(board) = self.each.get_mut(at) else {
            return false;
        };
        if board.followers.is_empty() {
            return false;
        }
        if !board.has_changed {
            if had_turns >= board.ends {
                board.changes = 0;
            }
            board.has_changed = self.changed.push_back(at).is_ok();
        }
        board.changes = board.changes.saturating_add(1);
        board.changes >= self.most_changes
    }

    /// Whether the followers of some board that has changed have yet to be due a turn.
    pub(crate) fn has_changed(&self) -> bool {
        !self.changed.is_empty()
    }

    /// The next board whose followers have yet to be due a turn.
    pub(crate) fn take_changed(&mut self) -> Option<usize> {
        self.changed.pop_front()
    }

    /// All followers of the board of this index are due a turn that take moves: its round is over once they have had it.
    pub(crate) fn are_due(&mut self, at: usize) {
        if let Some(board) = self.each.get_mut(at) {
            board.has_changed = false;
            board.ends = self.due;
        }
    }
}
