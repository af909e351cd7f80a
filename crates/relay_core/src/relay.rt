//! The relay on one thread. No program runs it. It is the reference, simple enough to be compared with what a history requires. The tests
//! give the same steps to it and to the relay over live boards.

ghost use Rattle.std.specs.Prelude.{◌≡◌, [], ◌∷◌, false, length, OnErr, IfOk};
ghost use Rattle.c960_game.specs.Limits.{LimitNumbers};
ghost use Rattle.relay_core.specs.Headline.{Headline};
ghost use Rattle.relay_core.specs.History.{History, is_accepted, lived};
ghost use Rattle.relay_core.specs.Replies.{may_grow, reply_to};
ghost use Rattle.relay_core.specs.Stands.{Stands};

use crate::holdings::Holdings;
use crate::reply::Reply;
use crate::step::Step;
use crate::stepper::run_steps;
use c960_game::Limits;
use std::alloc::{AllocError, Global};
use std::marker::Model;

/// A relay: boards, and the spectators who follow them. Contracts see a `RelayRecord`.
#[derive(Drop)]
pub struct Relay {
    holdings: Holdings,
    alloc: Global,
}

impl Model for Relay {
    ghost use Rattle.relay_core.specs.State.{RelayRecord};

    ghost Value = { RelayRecord };

    ghost view = { λ r. r.holdings.shown };
}

impl Relay {
    /// A relay with these limits and no board. The map of boards is reserved here.
    pub fn new(alloc: Global, limits: Limits) -> Result<Relay, AllocError>
        ensures stands { IfOk result (λ r. Stands limits r []) }
    {
        Ok(Relay {
            holdings: Holdings::new(alloc, limits)?,
            alloc,
        })
    }

    /// Makes one step. Its reply is the one that the whole history requires: the first refusal whose ground holds, in the order
    /// in which `reply_to` names them, else the accepted reply. An Open or a Follow that nothing else refuses may be refused for lack of
    /// memory. A refused step changes nothing.
    pub fn step(&mut self, step: Step) -> Reply
        ensures stands { (limits : LimitNumbers) (h : History) → Stands limits self.old h
            → Stands limits self.new ((step, result) ∷ h) }
        ensures exact { may_grow step ≡ false → (limits : LimitNumbers) (h : History) → Stands limits self.old h
            → result ≡ reply_to limits h step }
        ensures refused { is_accepted result ≡ false → self.new ≡ self.old }
    {
        self.holdings.step(self.alloc, step)
    }

    /// For every list of steps, in any interleaving of boards and followers, each board's log is a legal Chess960 game from its
    /// numbered start, and the moves that a follower has taken, then those it has queued, are, each once and in order, the
    /// stretch of that log from its joining place to the present or its closing; no move follows a game's end.
    ///
    /// It makes the steps in order and gives one reply for each. Their vector is reserved before the first step, so that running out
    /// of memory means that no step was made.
    pub fn run(&mut self, steps: &[Step]) -> Result<Vec<Reply>, AllocError>
        ensures headline { IfOk result (λ replies. (limits : LimitNumbers) (h : History) → Stands limits self.old h
            → Headline limits self.new (lived h steps.now replies.items)) }
        ensures all { IfOk result (λ replies. length replies.items ≡ length steps.now) }
        ensures unchanged { OnErr result (self.new ≡ self.old) }
    {
        run_steps(self.alloc, self, steps)
    }
}
