//! The trait of whatever makes the steps of a relay, and how a list of steps is made.

ghost use Rattle.std.specs.Prelude.{◌≡◌, length, OnErr, IfOk};
ghost use Rattle.c960_game.specs.Limits.{LimitNumbers};
ghost use Rattle.relay_core.specs.Headline.{Headline};
ghost use Rattle.relay_core.specs.History.{History, lived};
ghost use Rattle.relay_core.specs.Stands.{Stands};

use crate::relay::Relay;
use crate::reply::{Reply, Taken};
use crate::step::Step;
use std::alloc::{AllocError, Global};

/// Anything that answers each step by the whole history before it, as a relay does. To a contract it is a `RelayRecord`, so that code
/// over a stepper is proved once and runs over each kind of relay.
pub trait Stepper {
    ghost use Rattle.std.specs.Prelude.{◌≡◌, ◌∷◌, false};
    ghost use Rattle.c960_game.specs.Limits.{LimitNumbers};
    ghost use Rattle.relay_core.specs.History.{History, is_accepted};
    ghost use Rattle.relay_core.specs.Replies.{may_grow, reply_to};
    ghost use Rattle.relay_core.specs.Stands.{Stands};
    ghost use Rattle.relay_core.specs.State.{RelayRecord};

    // The boards, the followers and the limits.
    ghost record_of: { Self → RelayRecord };

    /// Makes one step. Its reply is the one that the whole history requires: the first refusal whose ground holds, in the order
    /// in which `reply_to` names them, else the accepted reply. An Open or a Follow that nothing else refuses may be refused for lack of
    /// memory. A refused step changes nothing.
    fn step(&mut self, step: Step) -> Reply
        ensures stands { (limits : LimitNumbers) (h : History) → Stands limits (record_of self.old) h
            → Stands limits (record_of self.new) ((step, result) ∷ h) }
        ensures exact { may_grow step ≡ false → (limits : LimitNumbers) (h : History) → Stands limits (record_of self.old) h
            → result ≡ reply_to limits h step }
        ensures refused { is_accepted result ≡ false → record_of self.new ≡ record_of self.old };
}

impl Stepper for Relay {
    ghost record_of = { λ r. r };

    fn step(&mut self, step: Step) -> Reply {
        self.step(step)
    }
}

/// Makes the steps in order on any stepper, and gives one reply for each. Their vector is reserved before the first step, so that
/// running out of memory means that no step was made. The clauses are those of `Relay::run`, for any stepper.
pub fn run_steps<S: Stepper>(
    alloc: Global,
    relay: &mut S,
    steps: &[Step],
) -> Result<Vec<Reply>, AllocError>
    ensures headline { IfOk result (λ replies. (limits : LimitNumbers) (h : History) → Stands limits (S.record_of relay.old) h
        → Headline limits (S.record_of relay.new) (lived h steps.now replies.items)) }
    ensures all { IfOk result (λ replies. length replies.items ≡ length steps.now) }
    ensures unchanged { OnErr result (S.record_of relay.new ≡ S.record_of relay.old) }
{
    // A fault of rattle-kit-13b: it lays out a `Reply` in a `Vec` only if the body names the enum inside it.
    let _named: Option<Taken> = None;
    let mut replies = Vec::with_capacity(alloc, steps.len())?;
    for step in steps {
        let reply = relay.step(*step);
        replies.push_reserved(reply);
    }
    Ok(replies)
}
