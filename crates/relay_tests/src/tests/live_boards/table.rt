//! Cases as tables: what is asked of a live board and its followers, and what they have to answer, one row each.

use crate::tests::claims::claim_in;
use crate::tests::live_boards::games::limits_of;
use crate::tests::live_boards::stage::{Answer, Ask, Stage};
use crate::tests::values::{account, move_of};
use c960_game::{Ending, Outcome, Refusal};
use relay_core::Taken;
use std::alloc::Global;
use std::process::Abort;

/// What is asked. Moves are given by their texts.
#[derive(Clone, Copy)]
pub enum Asked {
    /// One move, or a line of moves separated by spaces.
    Submit(&'static str),
    End(Ending),
    /// Follows from the log's present length on.
    Follow(usize),
    /// Follows from this place on.
    FollowFrom(usize, u16),
    Take(usize),
    Leave(usize),
    /// Goes without leaving.
    Drop(usize),
    /// The word of this number in the board's table.
    Look(u64),
}

/// What is answered.
#[derive(Clone, Copy)]
pub enum Told {
    /// Played at this place, and the game goes on; for a line, the place of the first move.
    Played(u16),
    /// Played at this place, which ended the game.
    PlayedLast(u16, Outcome),
    Ended(Outcome),
    /// Joined at this place.
    Following(u16),
    Took(u16, &'static str),
    Nothing,
    Over(Outcome),
    Cut,
    /// The place at which it joined, how many it took, its limit, and whether it was closed.
    Left(u16, u16, u16, bool),
    Dropped,
    Word(u64),
    NoWord,
    Refused(Refusal),
}

/// The question of a row; for a line of moves, the one with this move.
fn ask_of(rt: &impl Abort, asked: Asked, text: &str) -> Ask {
    match asked {
        Asked::Submit(_) => Ask::Submit(move_of(rt, text)),
        Asked::End(ending) => Ask::End(ending),
        Asked::Follow(who) => Ask::Follow(who, None),
        Asked::FollowFrom(who, place) => Ask::Follow(who, Some(place)),
        Asked::Take(who) => Ask::Take(who),
        Asked::Leave(who) => Ask::Leave(who),
        Asked::Drop(who) => Ask::Drop(who),
        Asked::Look(place) => Ask::Word(place),
    }
}

/// The answer of a row; for a line of moves, the one that many after the first.
fn answer_of(rt: &impl Abort, told: Told, after: u16) -> Answer {
    match told {
        Told::Played(place) => Answer::Played(place.saturating_add(after), None),
        Told::PlayedLast(place, outcome) => Answer::Played(place, Some(outcome)),
        Told::Ended(outcome) => Answer::Ended(outcome),
        Told::Following(joined) => Answer::Following(joined, 0),
        Told::Took(place, m) => Answer::Took(Taken::Move(place, move_of(rt, m))),
        Told::Nothing => Answer::Took(Taken::Nothing),
        Told::Over(outcome) => Answer::Took(Taken::Over(outcome)),
        Told::Cut => Answer::Took(Taken::Cut),
        Told::Left(joined, taken, limit, cut) => Answer::Left(account(joined, taken, limit, cut)),
        Told::Dropped => Answer::Dropped,
        Told::Word(word) => Answer::Word(Some(word)),
        Told::NoWord => Answer::Word(None),
        Told::Refused(refusal) => Answer::Refused(refusal),
    }
}

fn line_of(asked: Asked) -> &'static str {
    match asked {
        Asked::Submit(line) => line,
        _ => "-",
    }
}

/// Asserts that a board answers as a row says, each move of its line in turn.
fn assert_row(
    rt: &impl Abort,
    stage: &mut Stage,
    (name, row): (&str, usize),
    (asked, told): (Asked, Told),
) {
    let mut after = 0u16;
    for text in line_of(asked).split(' ') {
        let answer = stage.ask(ask_of(rt, asked, text));
        let is_told = answer == answer_of(rt, told, after);
        claim_in(rt, is_told, name, text, row);
        after = after.saturating_add(1);
    }
}

/// Asserts that a new board of start 518 with these limits (followers, capacity, plies) answers as the rows say.
pub fn assert_case(
    rt: &impl Abort,
    alloc: Global,
    name: &str,
    limits: (u16, u16, u16),
    rows: &[(Asked, Told)],
) {
    let (followers, capacity, plies) = limits;
    let limits = limits_of(rt, followers, capacity, plies);
    let mut stage = Stage::open(rt, alloc, limits, 8);
    for row in 0..rows.len() {
        assert_row(rt, &mut stage, (name, row), rows[row]);
    }
    drop(stage);
}
