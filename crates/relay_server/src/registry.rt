//! The boards of a server, which all connections share.

ghost use Rattle.relay_server.specs.Shared.{IsMade};

use crate::board_bell::BoardBell;
use c960_game::Limits;
use relay_core::{Reply, Step};
use relay_hall::{Hall, Handed, Owner};
use relay_pushing::Bell;
use std::alloc::{AllocError, Global};
use std::sync::atomic::AtomicU64;
use std::sync::{Mutex, Wait};

/// A hall behind a lock, and a bell for each board that it may have. The lock is taken for each question and each step. While it is held no
/// socket is waited for, and no other lock is taken. What a hold finds, no contract says.
#[derive(Drop)]
pub struct Registry {
    pub(crate) hall: Mutex<Hall>,
    /// How often the bell of each board was rung, wrapping, in the order of opening.
    pub(crate) rings: Vec<AtomicU64>,
}

impl Registry {
    /// A registry with these limits, without boards. The map of boards is reserved here, and the bells are made.
    ///
    /// # Errors
    ///
    /// There was no memory.
    pub fn new(alloc: Global, limits: Limits) -> Result<Registry, AllocError> {
        let mut rings = Vec::with_capacity(alloc, usize::from(limits.boards()))?;
        for _ in 0..limits.boards() {
            rings.push(AtomicU64::new(0))?;
        }
        Ok(Registry {
            hall: Mutex::new(Hall::new(alloc, limits, 0)?),
            rings,
        })
    }

    /// Makes a step for this speaker. A board whose game has changed is rung for.
    pub(crate) fn step<R: Wait>(
        &self,
        rt: &R,
        speaker: &Owner,
        step: &Step,
    ) -> (Reply, Option<Handed>)
        ensures { IsMade speaker.now step.now result.0 result.1 }
    {
        let mut hall = self.hall.lock(rt);
        let made = hall.step(speaker, step);
        if let Some(at) = hall.take_changed() {
            if let Some(rings) = self.rings.get(at) {
                BoardBell { rt, rings }.ring();
            }
        }
        made
    }
}
