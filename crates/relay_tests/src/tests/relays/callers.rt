//! The example of a caller that is written for both kinds of relay, tried with each.

use crate::tests::claims::claim;
use crate::tests::relays::kinds::{Kind, made, reply_to};
use crate::tests::relays::table::{following, limits_of};
use crate::tests::values::{START_518, account, board_of};
use crate::visits::visit;
use relay_core::{Relay, Reply, Step};
use relay_live::LiveRelay;
use std::alloc::Global;
use std::process::Abort;

/// Asserts that a visit to a new board is a follow and a leave.
fn assert_visit<K: Kind>(rt: &impl Abort, alloc: Global) {
    let mut relay: K = made(rt, alloc, limits_of(rt, (16, 64, 64, 1024)));
    let board = board_of(rt, "b1");
    let opened = reply_to(&mut relay, &Step::Open(board, 518));
    let (joined, left) = visit(&mut relay, 1, board);
    claim(rt, opened == Reply::Opened, "a board is opened");
    claim(rt, joined == following(rt, 0, START_518), "one follows");
    let told = Reply::Left(account(0, 0, 0, false));
    claim(rt, left == told, "and leaves");
    drop(relay);
}

#[test]
fn a_visit_is_a_follow_and_a_leave(rt: HostRuntime) {
    assert_visit::<Relay>(&rt, rt.alloc());
    assert_visit::<LiveRelay>(&rt, rt.alloc());
}
