//! What happens to boards, for all loops that show them.

use crate::feed::Feed;
use c960_board::Move;
use c960_game::MOST_BOARDS;
use relay_hall::Hall;
use std::alloc::{AllocError, Global};
use std::mem;

/// Tells all loops what happens to the boards of a hall. It never waits for one.
#[derive(Drop)]
pub struct Publisher {
    feeds: Vec<Feed>,
    /// Of each board, whether some loop has yet to be told of it.
    changed: [bool; MOST_BOARDS as usize],
    /// Whether a board has changed since all changes were last told, as far as there was room.
    has_changed: bool,
    /// Whether there was no room for some.
    is_behind: bool,
    /// Whether the loops have yet to be woken. While one of them lacks room, all are woken at each new try.
    is_fresh: bool,
    /// Room for the moves of a board.
    moves: Vec<Move>,
}

impl Publisher {
    /// Tells the loops of these feeds. There are no boards yet.
    pub fn new(alloc: Global, feeds: Vec<Feed>) -> Publisher {
        Publisher {
            feeds,
            changed: [false; MOST_BOARDS as usize],
            has_changed: false,
            is_behind: false,
            is_fresh: false,
            moves: Vec::new(alloc),
        }
    }

    /// The board of this index was opened, or its game has changed: loops are told of it by the next `publish`, if there are any.
    pub fn marks(&mut self, at: usize) {
        if at < self.changed.len() && !self.feeds.is_empty() {
            self.changed[at] = true;
            self.has_changed = true;
        }
    }

    /// Tells the loops of the boards that have changed, if any has since the last such call. Returns whether all loops were told all: what
    /// does not fit into a loop's ring, or finds no memory, is told later.
    pub fn publish(&mut self, hall: &Hall) -> bool {
        if mem::replace(&mut self.has_changed, false) {
            self.is_behind = false;
            for at in 0..MOST_BOARDS {
                if self.changed[usize::from(at)] {
                    let is_told = self.publish_one(hall, at).unwrap_or(false);
                    self.changed[usize::from(at)] = !is_told;
                    self.is_behind = self.is_behind || !is_told;
                }
            }
        }
        !self.is_behind
    }

    /// The same, and also if none has changed: rings that were full may have room.
    pub fn publish_again(&mut self, hall: &Hall) -> bool {
        self.has_changed = self.has_changed || self.is_behind;
        self.publish(hall)
    }

    /// Tells all loops of one board. Returns whether each was told all.
    fn publish_one(&mut self, hall: &Hall, at: u16) -> Result<bool, AllocError> {
        let Some(shown) = hall.board(usize::from(at)) else {
            return Ok(true);
        };
        // So many of its moves every loop was told.
        let told = self.feeds.iter().map(|feed| feed.moves_told(at));
        let from = told.min().unwrap_or(u16::MAX);
        self.moves.clear();
        shown.moves_from(from, &mut self.moves)?;
        self.is_fresh = true;
        let mut are_told = true;
        for feed in self.feeds.iter_mut() {
            are_told = feed.tell(at, &shown, from, self.moves.as_slice()) && are_told;
        }
        Ok(are_told)
    }

    /// Whether the loops have to be woken: they were told something since the last such call, or that was tried.
    pub fn take_fresh(&mut self) -> bool {
        mem::replace(&mut self.is_fresh, false)
    }
}
