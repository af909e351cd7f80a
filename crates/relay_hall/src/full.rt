//! Which boards are known to have no vacant slot.

use std::alloc::{AllocError, Global};

/// Whether each board, by its index in the order of opening, is known to have no vacant slot. It has room for all of them. Contracts do not
/// see it, as they do not see the slots: whoever follows a board may leave it at any time.
#[derive(Drop)]
pub(crate) struct Full {
    is_full: Vec<bool>,
}

impl Full {
    /// Nothing is known of this many boards.
    ///
    /// # Errors
    ///
    /// There was no memory.
    pub(crate) fn with_room_for(alloc: Global, boards: usize) -> Result<Full, AllocError> {
        Ok(Full {
            is_full: vec![in alloc; false; boards]?,
        })
    }

    /// From now on this is known of the board of this index.
    pub(crate) fn set(&mut self, at: usize, is_full: bool) {
        if at < self.is_full.len() {
            self.is_full[at] = is_full;
        }
    }

    /// Whether the board of this index is known to have no vacant slot.
    pub(crate) fn has(&self, at: usize) -> bool {
        at < self.is_full.len() && self.is_full[at]
    }
}
