//! The two kinds of relay, which have to do the same.

use c960_game::Limits;
use relay_core::{Relay, Reply, Step, Stepper};
use relay_live::LiveRelay;
use std::alloc::{AllocError, Global};
use std::process::Abort;

/// A kind of relay: besides its steps, how one is made, and how it runs a list of steps.
pub trait Kind: Stepper + Drop {
    fn made(alloc: Global, limits: Limits) -> Result<Self, AllocError>;

    fn ran(&mut self, steps: &[Step]) -> Result<Vec<Reply>, AllocError>;
}

/// A new relay of a kind. No allocation is refused.
pub fn made<K: Kind>(rt: &impl Abort, alloc: Global, limits: Limits) -> K {
    K::made(alloc, limits).expect(rt, "memory")
}

/// The reply to a step. Whoever calls this carries no clauses of a relay along.
pub fn reply_to(relay: &mut impl Stepper, step: &Step) -> Reply {
    relay.step(*step)
}

impl Kind for Relay {
    fn made(alloc: Global, limits: Limits) -> Result<Relay, AllocError> {
        Relay::new(alloc, limits)
    }

    fn ran(&mut self, steps: &[Step]) -> Result<Vec<Reply>, AllocError> {
        self.run(steps)
    }
}

impl Kind for LiveRelay {
    fn made(alloc: Global, limits: Limits) -> Result<LiveRelay, AllocError> {
        LiveRelay::new(alloc, limits)
    }

    fn ran(&mut self, steps: &[Step]) -> Result<Vec<Reply>, AllocError> {
        self.run(steps)
    }
}
