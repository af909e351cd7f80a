//! Cases as tables: what is asked of a relay, and what it has to answer, one row each.

use crate::tests::claims::claim_in;
use crate::tests::relays::kinds::{Kind, made};
use crate::tests::values::{account, board_of, move_of, position_of};
use c960_game::{Ending, Limits, Outcome, Refusal};
use relay_core::{Relay, Reply, Spectator, Step, Taken};
use relay_live::LiveRelay;
use std::alloc::{AllocError, Global};
use std::process::Abort;

/// A step, or a line of submits of moves separated by spaces.
#[derive(Clone, Copy)]
pub enum Asked {
    Open(&'static str, u16),
    Submit(&'static str, &'static str),
    SubmitLine(&'static str, &'static str),
    End(&'static str, Ending),
    /// Follows from the log's present length on.
    Follow(Spectator, &'static str),
    /// Follows from this place on.
    FollowFrom(Spectator, &'static str, u16),
    Take(Spectator),
    Leave(Spectator),
}

/// The reply to a step. Positions and moves are given by their texts.
#[derive(Clone, Copy)]
pub enum Told {
    Opened,
    /// Played at this place, and the game goes on; for a line of submits, the place of the first.
    Played(u16),
    /// Played at this place, which ended the game.
    PlayedLast(u16, Outcome),
    Ended(Outcome),
    /// Follows from this place of the log and this position on.
    Following(u16, &'static str),
    /// Took the move at this place.
    Took(u16, &'static str),
    Nothing,
    Over(Outcome),
    Cut,
    /// The place at which it joined, how many it took, its limit, and whether it was closed.
    Left(u16, u16, u16, bool),
    Refused(Refusal),
}

/// Steps, and the replies to be given.
#[derive(Drop)]
pub struct Case {
    pub steps: Vec<Step>,
    pub replies: Vec<Reply>,
}

/// The limits with these numbers: boards, followers a board, capacity, plies.
pub fn limits_of(rt: &impl Abort, numbers: (u16, u16, u16, u16)) -> Limits {
    let (boards, followers, capacity, plies) = numbers;
    Limits::new(boards, followers, capacity, plies).expect(rt, "limits")
}

/// The reply to a follow.
pub fn following(rt: &impl Abort, joined: u16, text: &str) -> Reply {
    Reply::Following {
        joined,
        position: position_of(rt, text),
    }
}

/// The step of a row; for a line of submits, the one with this move.
pub fn step_of(rt: &impl Abort, asked: Asked, m: &str) -> Step {
    match asked {
        Asked::Open(board, start) => Step::Open(board_of(rt, board), start),
        Asked::Submit(board, _) | Asked::SubmitLine(board, _) => {
            Step::Submit(board_of(rt, board), move_of(rt, m))
        }
        Asked::End(board, ending) => Step::End(board_of(rt, board), ending),
        Asked::Follow(who, board) => Step::Follow(who, board_of(rt, board), None),
        Asked::FollowFrom(who, board, place) => {
            Step::Follow(who, board_of(rt, board), Some(place))
        }
        Asked::Take(who) => Step::Take(who),
        Asked::Leave(who) => Step::Leave(who),
    }
}

/// The reply of a row; for a line of submits, the one to the submit that many after the first.
pub fn reply_of(rt: &impl Abort, told: Told, after: u16) -> Reply {
    match told {
        Told::Opened => Reply::Opened,
        Told::Played(place) => Reply::Played {
            place: place.saturating_add(after),
            outcome: None,
        },
        Told::PlayedLast(place, outcome) => Reply::Played {
            place,
            outcome: Some(outcome),
        },
        Told::Ended(outcome) => Reply::Ended(outcome),
        Told::Following(joined, position) => following(rt, joined, position),
        Told::Took(place, m) => Reply::Took(Taken::Move(place, move_of(rt, m))),
        Told::Nothing => Reply::Took(Taken::Nothing),
        Told::Over(outcome) => Reply::Took(Taken::Over(outcome)),
        Told::Cut => Reply::Took(Taken::Cut),
        Told::Left(joined, taken, limit, cut) => Reply::Left(account(joined, taken, limit, cut)),
        Told::Refused(refusal) => Reply::Refused(refusal),
    }
}

/// Asserts that something holds of a step. Where it does not, these words say what it was.
pub fn assert_step(rt: &impl Abort, holds: bool, what: &str, step: &Step) {
    assert!(rt; holds, "{what}: {step:?}");
}

/// The moves of a row, one for a step that has none.
pub fn line_of(asked: Asked) -> &'static str {
    match asked {
        Asked::Submit(_, m) => m,
        Asked::SubmitLine(_, moves) => moves,
        _ => "-",
    }
}

/// The case of a table.
pub fn case_of(rt: &impl Abort, alloc: Global, rows: &[(Asked, Told)]) -> Result<Case, AllocError> {
    let mut case = Case {
        steps: Vec::new(alloc),
        replies: Vec::new(alloc),
    };
    for row in rows {
        add_row(rt, &mut case, row)?;
    }
    Ok(case)
}

/// Adds the steps of a row, and their replies.
fn add_row(rt: &impl Abort, case: &mut Case, row: &(Asked, Told)) -> Result<(), AllocError> {
    let (asked, told) = *row;
    let mut after = 0u16;
    for m in line_of(asked).split(' ') {
        case.steps.push(step_of(rt, asked, m))?;
        case.replies.push(reply_of(rt, told, after))?;
        after = after.saturating_add(1);
    }
    Ok(())
}

/// Asserts that these replies of a case are those that have to be given.
fn assert_replies(rt: &impl Abort, given: &[Reply], told: &[Reply], (name, kind): (&str, &str)) {
    for i in 0..given.len().min(told.len()) {
        claim_in(rt, given[i] == told[i], name, kind, i);
    }
    claim_in(rt, given.len() == told.len(), name, kind, given.len());
}

/// What a new relay of the kind replies to these steps in one run.
fn replies_of<K: Kind>(
    rt: &impl Abort,
    alloc: Global,
    limits: Limits,
    steps: &[Step],
) -> Vec<Reply> {
    let mut relay: K = made(rt, alloc, limits);
    relay.ran(steps).expect(rt, "memory")
}

/// Asserts that a new relay of the kind, which is named so, gives the replies of a case in one run.
fn assert_run<K: Kind>(
    rt: &impl Abort,
    alloc: Global,
    limits: Limits,
    case: &Case,
    names: (&str, &str),
) {
    let given = replies_of::<K>(rt, alloc, limits, case.steps.as_slice());
    assert_replies(rt, given.as_slice(), case.replies.as_slice(), names);
}

/// Asserts that a relay of either kind with these limits answers each row in this way.
pub fn assert_case(
    rt: &impl Abort,
    alloc: Global,
    name: &str,
    numbers: (u16, u16, u16, u16),
    rows: &[(Asked, Told)],
) {
    let case = case_of(rt, alloc, rows).expect(rt, "memory");
    let limits = limits_of(rt, numbers);
    assert_run::<Relay>(rt, alloc, limits, &case, (name, "relay"));
    assert_run::<LiveRelay>(rt, alloc, limits, &case, (name, "live relay"));
    drop(case);
}
