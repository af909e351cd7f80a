//! The two kinds of relay, which are given the same steps. The built program, which runs the one over live boards, is given these steps
//! too, and is compared with a plain relay (`crates/relay960/replays/by_chance.py`).

use crate::tests::relays::kinds::{made, reply_to};
use crate::tests::relays::table::assert_step;
use c960_game::Limits;
use relay_core::{Relay, Reply, Step};
use relay_live::LiveRelay;
use std::alloc::Global;
use std::process::Abort;

/// A relay of each kind.
#[derive(Drop)]
pub struct Both {
    plain: Relay,
    live: LiveRelay,
}

/// Relays without boards.
pub fn both_of(rt: &impl Abort, alloc: Global, limits: Limits) -> Both {
    Both {
        plain: made(rt, alloc, limits),
        live: made(rt, alloc, limits),
    }
}

/// Asserts that both answer a step alike. Returns whether they accept it.
pub fn ask(rt: &impl Abort, both: &mut Both, step: &Step) -> bool {
    let plain = reply_to(&mut both.plain, step);
    let live = reply_to(&mut both.live, step);
    assert_step(rt, live == plain, "both answer alike", step);
    !matches!(plain, Reply::Refused(_))
}
