//! The slots of a board, which are given out again once they are left.

use crate::tests::claims::claim_at;
use crate::tests::live_boards::games::limits_of;
use crate::tests::live_boards::stage::{Answer, Ask, Stage};
use crate::tests::values::account;
use c960_game::Refusal;
use std::alloc::Global;
use std::process::Abort;

/// How many may follow.
const MOST: usize = 6;

/// Asserts that one leaves.
fn leave(rt: &impl Abort, stage: &mut Stage, who: usize) {
    let left = stage.ask(Ask::Leave(who)) == Answer::Left(account(0, 0, 0, false));
    claim_at(rt, left, "who leaves", who);
}

/// Asserts that one follows.
fn follow(rt: &impl Abort, stage: &mut Stage, who: usize) {
    let follows = stage.ask(Ask::Follow(who, None)) == Answer::Following(0, 0);
    claim_at(rt, follows, "who follows", who);
}

/// Two leave and follow again, while one more asks in vain.
fn swap_places(rt: &impl Abort, stage: &mut Stage, first: usize, second: usize) {
    leave(rt, stage, first);
    leave(rt, stage, second);
    follow(rt, stage, first);
    follow(rt, stage, second);
    let refused = stage.ask(Ask::Follow(MOST, None));
    let is_full = refused == Answer::Refused(Refusal::TooManyFollowers);
    claim_at(rt, is_full, "no room for", MOST);
}

/// Asserts that of two slots that were left a newcomer has the lower one, also after both were left and taken several times: then only the
/// higher one is vacant.
fn assert_lower(rt: &impl Abort, alloc: Global, first: usize, second: usize) {
    // One more may ask to follow than may follow.
    let mut stage = Stage::open(rt, alloc, limits_of(rt, MOST as u16, 64, 64), MOST + 1);
    for who in 0..MOST {
        follow(rt, &mut stage, who);
    }
    for _ in 0..3 {
        swap_places(rt, &mut stage, first, second);
    }
    leave(rt, &mut stage, first);
    leave(rt, &mut stage, second);
    follow(rt, &mut stage, first);
    for slot in 0..MOST {
        let is_vacant = stage.ask(Ask::Word(slot as u64 + 2)) == Answer::Word(Some(0));
        claim_at(rt, is_vacant == (slot == first.max(second)), "slot", slot);
    }
    drop(stage);
}

#[test]
fn the_lowest_slot_that_was_left_is_given_out_first(rt: HostRuntime) {
    for first in 0..MOST {
        for second in 0..MOST {
            if first != second {
                assert_lower(&rt, rt.alloc(), first, second);
            }
        }
    }
}
