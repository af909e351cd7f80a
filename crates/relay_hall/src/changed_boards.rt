//! Which boards have something new.

use std::alloc::{AllocError, Global};

/// The boards whose games have changed and of which nobody has asked since, each once, by their indices in the order of opening. It has
/// room for all of them. No contract promises that a board is among them: whoever is told of one reads it.
#[derive(Drop)]
pub(crate) struct ChangedBoards {
    boards: Vec<usize>,
    /// Whether each board is among them.
    is_among: Vec<bool>,
}

impl ChangedBoards {
    /// None, with room for this many boards.
    ///
    /// # Errors
    ///
    /// There was no memory.
    pub(crate) fn with_room_for(alloc: Global, boards: usize) -> Result<ChangedBoards, AllocError> {
        Ok(ChangedBoards {
            boards: Vec::with_capacity(alloc, boards)?,
            is_among: vec![in alloc; false; boards]?,
        })
    }

    /// The game of the board of this index has changed.
    pub(crate) fn add(&mut self, at: usize) {
        if at >= self.is_among.len() || self.is_among[at] {
            return;
        }
        if self.boards.len() < self.boards.capacity() {
            self.is_among[at] = true;
            self.boards.push_reserved(at);
        }
    }

    /// One of them, which is none of them any more.
    pub(crate) fn take(&mut self) -> Option<usize> {
        let at = self.boards.pop()?;
        if at < self.is_among.len() {
            self.is_among[at] = false;
        }
        Some(at)
    }
}
