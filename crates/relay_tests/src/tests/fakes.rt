//! A keeper that notes what it is asked, a source over a list, and a bell that rings when it is waited for.

ghost use Rattle.relay_tests.specs.Keeping.{Makes};

use crate::relay_keeper::RelayKeeper;
use relay_core::{BoardName, Reply, Step, Taken};
use relay_pushing::{Bell, Keeper, Source};
use relay960_engines::default_limits;
use std::alloc::{AllocError, Global};
use std::cell::Cell;

/// How many steps a keeper notes.
const NOTED: usize = 64;

/// A keeper over a relay, the first steps that it was asked to make, and how many steps it accepted in all.
#[derive(Drop)]
pub struct NotingKeeper {
    pub keeper: RelayKeeper,
    pub steps: Vec<Step>,
    pub accepted: u32,
}

impl NotingKeeper {
    pub fn new(alloc: Global) -> Result<NotingKeeper, AllocError> {
        // The list comes first: what is let go where the keeper is refused is then little.
        let steps = Vec::with_capacity(alloc, NOTED)?;
        let keeper = RelayKeeper::new(alloc, default_limits())?;
        Ok(NotingKeeper {
            keeper,
            steps,
            accepted: 0,
        })
    }

    /// Makes a step, and notes that it was asked to.
    fn note_and_make(&mut self, step: &Step) -> Reply
        ensures { Makes self.old.keeper step.now result self.new.keeper }
    {
        if self.steps.len() < self.steps.capacity() {
            self.steps.push_reserved(*step);
        }
        let reply = self.keeper.step(*step);
        if !matches!(&reply, Reply::Refused(_)) {
            self.accepted = self.accepted.saturating_add(1);
        }
        reply
    }
}

impl Keeper for NotingKeeper {
    ghost use Rattle.relay_tests.specs.Keeping.{Makes};

    // Only the tests compare what it says with what is wanted.
    ghost tells = { λ _ _ _. Unit {0} };

    ghost makes = { λ old step reply later. Makes old.keeper step reply later.keeper };

    fn knows(&self, board: &BoardName) -> bool {
        self.keeper.knows(board)
    }

    fn owns(&self, _board: &BoardName) -> bool {
        false
    }

    fn owns_any(&self) -> bool {
        false
    }

    fn step(&mut self, step: Step) -> Reply {
        self.note_and_make(&step)
    }
}

/// These answers, one after another, and then that the follower was closed.
#[derive(Drop)]
pub struct Answers<'a> {
    pub rest: &'a [Taken],
}

impl Source for Answers<'_> {
    ghost gives = { λ _ _ _. Unit {0} };

    fn take(&mut self) -> Taken {
        match self.rest.split_first() {
            Some((first, rest)) => {
                self.rest = rest;
                *first
            }
            None => Taken::Cut,
        }
    }
}

/// A bell that is rung when it is waited for. It counts the waits, and those of them that would last: nobody had rung since the count that
/// was heard.
#[derive(Drop)]
pub struct Ringing {
    pub rings: Cell<u64>,
    pub waits: Cell<u64>,
    pub sleeps: Cell<u64>,
}

impl Ringing {
    pub fn new() -> Ringing {
        Ringing {
            rings: Cell::new(0),
            waits: Cell::new(0),
            sleeps: Cell::new(0),
        }
    }
}

impl Bell for Ringing {
    fn count(&self) -> u64 {
        self.rings.get()
    }

    fn ring(&self) {
        self.rings.set(self.rings.get().wrapping_add(1));
    }

    fn wait(&self, heard: u64) -> u64 {
        self.waits.set(self.waits.get().wrapping_add(1));
        let now = self.rings.get();
        if now != heard {
            return now;
        }
        self.sleeps.set(self.sleeps.get().wrapping_add(1));
        let next = if heard == u64::MAX { 0 } else { heard + 1 };
        self.rings.set(next);
        next
    }
}
