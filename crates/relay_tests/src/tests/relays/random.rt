//! Lists of steps drawn at random, which both kinds of relay answer alike. The program answers the same steps as a plain relay does.

use crate::tests::chance::{Dice, ENDINGS, MOVES};
use crate::tests::relays::both::{ask, both_of};
use crate::tests::relays::table::limits_of;
use crate::tests::values::{board_of, move_of};
use relay_core::Step;
use std::process::Abort;

const STARTS: [u16; 4] = [518, 518, 0, 960];

const BOARDS: [&str; 2] = ["a", "b"];

/// A step: of 64, 4 open, 24 submit, 2 end, 4 follow from the present and 4 from an early place, 20 take and 6 leave.
fn any_step(rt: &impl Abort, dice: &mut Dice) -> Step {
    let board = board_of(rt, BOARDS[(dice.roll() % 2) as usize]);
    let who = dice.roll() % 3;
    let which = dice.roll();
    match dice.roll() % 64 {
        0..=3 => Step::Open(board, STARTS[(which % 4) as usize]),
        4..=27 => Step::Submit(board, move_of(rt, MOVES[(which % 8) as usize])),
        28..=29 => Step::End(board, ENDINGS[(which % 13) as usize]),
        30..=33 => Step::Follow(who, board, None),
        34..=37 => Step::Follow(who, board, Some((which % 6) as u16)),
        38..=57 => Step::Take(who),
        _ => Step::Leave(who),
    }
}

/// Boards, followers a board, capacity, plies.
const LIMITS: [(u16, u16, u16, u16); 8] = [
    (2, 3, 1, 64),
    (2, 3, 2, 64),
    (2, 3, 3, 64),
    (2, 2, 1, 2),
    (2, 2, 3, 4),
    (2, 1, 2, 64),
    (1, 2, 1, 64),
    (1, 3, 3, 3),
];

#[test]
fn steps_by_chance_are_answered_alike(rt: HostRuntime) {
    let mut dice = Dice { seed: 960 };
    for numbers in LIMITS {
        let mut both = both_of(&rt, rt.alloc(), limits_of(&rt, numbers));
        for _ in 0..300 {
            let step = any_step(&rt, &mut dice);
            let _ = ask(&rt, &mut both, &step);
        }
        drop(both);
    }
}
