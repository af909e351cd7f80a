//! The connections that are due a turn.

ghost use Rattle.std.specs.Prelude.{◌≡◌, ◌==◌, ◌&&◌, length, option_map, slice_get, OnErr, OnOk};
ghost use Rattle.server_loop.specs.RunQueue.{count_of, first_of, nothing_due, with_due, without_first};

use std::alloc::{AllocError, Global};
use std::collections::VecDeque;
use std::marker::Model;

/// Which connections have their turn first.
#[derive(Clone, Copy, PartialEq, Eq)]
pub enum Rank {
    /// One that owns a board, the first of its key.
    Owner,
    /// One that owns a board by a key by which another is due.
    Sibling,
    /// One that follows a board.
    Follower,
    /// Any other.
    Other,
}

/// A connection that is due a turn, and since which millisecond what it is due for may have been there.
#[derive(Clone, Copy)]
pub struct Waiting {
    pub key: u64,
    pub since: u64,
}

/// The keys of connections that are due a turn: those of each rank in the order in which they became due. A key may be among them whose
/// connection is not due any more.
#[derive(Drop)]
pub struct RunQueue {
    owners: VecDeque<u64>,
    siblings: VecDeque<u64>,
    followers: VecDeque<u64>,
    others: VecDeque<Waiting>,
}

impl Model for RunQueue {
    ghost use Rattle.server_loop.specs.RunQueue.{RunQueueRecord};

    ghost Value = { RunQueueRecord };

    ghost view = { λ a. record { owners = a.owners.items; siblings = a.siblings.items; followers = a.followers.items; others = a.others.items } };
}

impl RunQueue {
    /// None.
    pub fn new(alloc: Global) -> RunQueue
        ensures { result ≡ nothing_due }
    {
        RunQueue {
            owners: VecDeque::new(alloc),
            siblings: VecDeque::new(alloc),
            followers: VecDeque::new(alloc),
            others: VecDeque::new(alloc),
        }
    }

    /// Whether there are none.
    pub fn is_empty(&self) -> bool
        ensures { result ≡ ((length self.now.owners == 0) && ((length self.now.siblings == 0) && ((length self.now.followers == 0) && (length self.now.others == 0)))) }
    {
        self.owners.is_empty()
            && self.siblings.is_empty()
            && self.followers.is_empty()
            && self.others.is_empty()
    }

    /// Adds a connection of this rank, behind those that are due already.
    ///
    /// # Errors
    ///
    /// There was no memory.
    pub fn add(&mut self, key: u64, rank: Rank, since: u64) -> Result<(), AllocError>
        ensures ok { OnOk result (self.new ≡ with_due self.old key rank since) }
        ensures err { OnErr result (self.new ≡ self.old) }
    {
        match rank {
            Rank::Owner => self.owners.push_back(key)?,
            Rank::Sibling => self.siblings.push_back(key)?,
            Rank::Follower => self.followers.push_back(key)?,
            Rank::Other => self.others.push_back(Waiting { key, since })?,
        }
        Ok(())
    }

    /// Takes the first of this rank.
    pub fn take(&mut self, rank: Rank) -> Option<u64>
        ensures first { result ≡ first_of self.old rank }
        ensures rest { self.new ≡ without_first self.old rank }
    {
        match rank {
            Rank::Owner => self.owners.pop_front(),
            Rank::Sibling => self.siblings.pop_front(),
            Rank::Follower => self.followers.pop_front(),
            Rank::Other => Some(self.others.pop_front()?.key),
        }
    }

    /// How many of this rank there are.
    pub fn len(&self, rank: Rank) -> usize
        ensures { result ≡ count_of self.now rank }
    {
        match rank {
            Rank::Owner => self.owners.len(),
            Rank::Sibling => self.siblings.len(),
            Rank::Follower => self.followers.len(),
            Rank::Other => self.others.len(),
        }
    }

    /// Since which millisecond the first of those may have been due that neither own nor follow a board.
    pub fn since(&self) -> Option<u64>
        ensures { result ≡ option_map (λ w. w.since) (slice_get self.now.others 0) }
    {
        Some(self.others.front()?.since)
    }
}
