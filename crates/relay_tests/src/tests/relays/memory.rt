//! Lack of memory. If one allocation is refused (`rt try --test --fail-alloc N`, for each N in turn), the call that needed
//! it says so and changes nothing, and is accepted when made again; everything else is answered as ever.

use crate::tests::claims::{claim, claim_at};
use crate::tests::relays::cases::mate;
use crate::tests::relays::kinds::{Kind, reply_to};
use crate::tests::relays::table::Asked::{End, Follow, FollowFrom, Leave, Open, Submit, Take};
use crate::tests::relays::table::Told::{
    Cut, Ended, Following, Left, Nothing, Opened, Over, Played, Took,
};
use crate::tests::relays::table::{Asked, Case, Told, case_of, limits_of};
use crate::tests::values::{ONE_PLY, START_0, START_518, TWO_PLIES};
use c960_game::{Ending, Limits, Outcome, Refusal};
use relay_core::{Relay, Reply, Step, Stepper};
use relay_live::LiveRelay;
use std::alloc::{AllocError, Global};
use std::process::Abort;

/// How many calls were refused for lack of memory.
#[derive(Drop)]
struct Refused {
    count: u32,
}

impl Refused {
    fn note(&mut self) {
        self.count = self.count.saturating_add(1);
    }
}

/// A new relay, made again if it was refused.
fn new_relay<K: Kind>(rt: &impl Abort, alloc: Global, limits: Limits, refused: &mut Refused) -> K {
    match K::made(alloc, limits) {
        Ok(relay) => relay,
        Err(AllocError) => {
            refused.note();
            K::made(alloc, limits).expect(rt, "one refusal at the most")
        }
    }
}

/// The case of these rows, made again if it was refused.
fn case_again(rt: &impl Abort, alloc: Global, rows: &[(Asked, Told)]) -> Case {
    match case_of(rt, alloc, rows) {
        Ok(case) => case,
        Err(AllocError) => case_of(rt, alloc, rows).expect(rt, "one refusal at the most"),
    }
}

/// Whether a step may be refused for lack of memory.
fn takes_memory(step: &Step) -> bool {
    matches!(step, Step::Open(..) | Step::Follow(..))
}

/// Whether a step was refused for lack of memory.
fn wants_memory(reply: &Reply) -> bool {
    matches!(reply, Reply::Refused(Refusal::OutOfMemory))
}

/// Asserts that a step gets this answer; one that was refused for lack of memory is made again. It is accepted then as if it had never been
/// made, so that the first call took no board and no seat.
fn assert_answer(
    rt: &impl Abort,
    relay: &mut impl Stepper,
    step: &Step,
    reply: &Reply,
    refused: &mut Refused,
) {
    let first = reply_to(relay, step);
    if wants_memory(&first) && takes_memory(step) {
        refused.note();
        let second = reply_to(relay, step);
        claim(rt, second == *reply, "made again");
    } else {
        claim(rt, first == *reply, "the answer");
    }
}

/// The replies of a run, made again if it was refused: then no step was made, as the replies show.
fn run(
    rt: &impl Abort,
    relay: &mut impl Kind,
    steps: &[Step],
    refused: &mut Refused,
) -> Vec<Reply> {
    match relay.ran(steps) {
        Ok(replies) => replies,
        Err(AllocError) => {
            refused.note();
            relay.ran(steps).expect(rt, "one refusal at the most")
        }
    }
}

/// Two boards, one follower each, one move a queue. A step refused for lack of memory takes no board and no seat, and leaves
/// the other board, its follower and the queue as they were.
static ROWS: [(Asked, Told); 25] = [
    (Open("a", 518), Opened),
    (Open("b", 960), Told::Refused(Refusal::BadStart)),
    (Follow(1, "a"), Following(0, START_518)),
    (Submit("a", "e2e4"), Played(0)),
    (Follow(2, "a"), Told::Refused(Refusal::TooManyFollowers)),
    (Open("b", 0), Opened),
    (Open("c", 0), Told::Refused(Refusal::TooManyBoards)),
    (Follow(1, "b"), Told::Refused(Refusal::FollowerExists)),
    (Follow(2, "b"), Following(0, START_0)),
    (Follow(3, "b"), Told::Refused(Refusal::TooManyFollowers)),
    (Submit("a", "e7e5"), Played(1)),
    (Take(1), Took(0, "e2e4")),
    (Take(1), Cut),
    (Leave(1), Left(0, 1, 1, true)),
    (Take(2), Nothing),
    (End("b", Ending::Agreed), Ended(Outcome::Agreed)),
    (Take(2), Over(Outcome::Agreed)),
    (Follow(1, "a"), Following(2, TWO_PLIES)),
    (Leave(1), Left(2, 0, 2, false)),
    (Follow(3, "a"), Following(2, TWO_PLIES)),
    (Leave(3), Left(2, 0, 2, false)),
    (FollowFrom(4, "a", 0), Told::Refused(Refusal::TooFarBack)),
    (FollowFrom(4, "a", 1), Following(1, ONE_PLY)),
    (Take(4), Took(1, "e7e5")),
    (Take(4), Nothing),
];

/// The rows.
fn rows() -> &'static [(Asked, Told)] {
    &ROWS
}

/// Asserts that a relay gives these answers.
fn assert_answers(rt: &impl Abort, relay: &mut impl Stepper, case: &Case, refused: &mut Refused) {
    for i in 0..case.steps.len().min(case.replies.len()) {
        assert_answer(rt, relay, &case.steps[i], &case.replies[i], refused);
    }
}

/// Asserts that a new relay of the kind answers these rows. Returns how many of their calls were refused for lack of memory.
fn refusals_in<K: Kind>(
    rt: &impl Abort,
    alloc: Global,
    limits: (u16, u16, u16, u16),
    rows: &[(Asked, Told)],
) -> u32 {
    let mut refused = Refused { count: 0 };
    let case = case_again(rt, alloc, rows);
    let mut relay: K = new_relay(rt, alloc, limits_of(rt, limits), &mut refused);
    assert_answers(rt, &mut relay, &case, &mut refused);
    drop(case);
    refused.count
}

/// Asserts that new relays of both kinds answer these rows, and that at most one call was refused for lack of memory.
fn assert_rows(
    rt: &impl Abort,
    alloc: Global,
    limits: (u16, u16, u16, u16),
    rows: &[(Asked, Told)],
) {
    let plain = refusals_in::<Relay>(rt, alloc, limits, rows);
    let live = refusals_in::<LiveRelay>(rt, alloc, limits, rows);
    claim(
        rt,
        plain.saturating_add(live) <= 1,
        "one refusal at the most",
    );
}

#[test]
fn a_refused_step_is_accepted_when_made_again(rt: HostRuntime) {
    assert_rows(&rt, rt.alloc(), (2, 1, 1, 1024), rows());
}

#[test]
fn the_steps_after_an_opening_and_a_follow_are_answered_whatever_is_refused(rt: HostRuntime) {
    assert_rows(&rt, rt.alloc(), (16, 64, 64, 1024), mate());
}

/// The steps of a run. Each that takes memory occurs twice: if the first is refused for lack of it, the second is accepted.
static RUN: [(Asked, Told); 10] = [
    (Open("a", 518), Opened),
    (Open("a", 518), Told::Refused(Refusal::BoardExists)),
    (Follow(1, "a"), Following(0, START_518)),
    (Follow(1, "a"), Told::Refused(Refusal::FollowerExists)),
    (Submit("a", "e2e4"), Played(0)),
    (Submit("a", "e7e5"), Played(1)),
    (Take(1), Took(0, "e2e4")),
    (Take(1), Cut),
    (Leave(1), Left(0, 1, 1, true)),
    (Submit("a", "e2e4"), Told::Refused(Refusal::Illegal)),
];

/// The steps.
fn steps_of_a_run() -> &'static [(Asked, Told)] {
    &RUN
}

/// Asserts that these are the replies to that run. A step that was refused for lack of memory is noted, and its reply is then wanted of the
/// next one.
fn assert_replies(rt: &impl Abort, given: &[Reply], wanted: &[Reply], refused: &mut Refused) {
    claim(rt, given.len() == wanted.len(), "as many as steps");
    let mut is_late = false;
    for i in 0..given.len() {
        let place = if is_late { i.saturating_sub(1) } else { i };
        is_late = wants_memory(&given[i]);
        if is_late {
            refused.note();
        } else {
            claim_at(rt, wanted.get(place) == Some(&given[i]), "step", i);
        }
    }
}

/// Asserts that a new relay of the kind answers a run. Returns how many calls were refused for lack of memory.
fn refusals_of_a_run<K: Kind>(rt: &impl Abort, alloc: Global) -> u32 {
    let mut refused = Refused { count: 0 };
    let case = case_again(rt, alloc, steps_of_a_run());
    let limits = limits_of(rt, (1, 1, 1, 1024));
    let mut relay: K = new_relay(rt, alloc, limits, &mut refused);
    let given = run(rt, &mut relay, case.steps.as_slice(), &mut refused);
    assert_replies(rt, given.as_slice(), case.replies.as_slice(), &mut refused);
    drop((given, case));
    refused.count
}

#[test]
fn a_refused_run_makes_no_step(rt: HostRuntime) {
    let plain = refusals_of_a_run::<Relay>(&rt, rt.alloc());
    let live = refusals_of_a_run::<LiveRelay>(&rt, rt.alloc());
    claim(
        &rt,
        plain.saturating_add(live) <= 1,
        "one refusal at the most",
    );
}
