//! Crowds over a script: a thousand spectators come to each board, some take what is played, and all leave, in the order in which they
//! came. Some of them come again, and leave in the other order.

use crate::chance::Chance;
use crate::digest::Digest;
use crate::lines::Lines;
use crate::rounds::run_script;
use crate::walk::{start, step};
use c960_game::Limits;
use std::alloc::{AllocError, Global};

/// How many crowds come, each to a relay of its own.
const CROWDS: u8 = 8;

/// How many spectators a board has.
const SPECTATORS: u16 = 1000;

/// How many moves are made on each board.
const PLIES: u16 = 4;

/// The number of a board's spectator.
fn spectator(first: u32, board: u16, place: u16) -> u32 {
    first
        .wrapping_add(u32::from(board) * 1024)
        .wrapping_add(u32::from(place))
}

/// The number of a board's start: each board has another one.
fn start_of(number: u16, board: u16) -> u16 {
    number.saturating_add(board) % 960
}

/// All come, to the boards by turns.
fn come(lines: &mut Lines, first: u32, boards: u16, most: u16) -> Result<(), AllocError> {
    for place in 0..most {
        for board in 0..boards {
            lines.follow(spectator(first, board, place), board, None)?;
        }
    }
    Ok(())
}

/// All leave, in the order in which they came.
fn leave(lines: &mut Lines, first: u32, boards: u16, most: u16) -> Result<(), AllocError> {
    for place in 0..most {
        for board in 0..boards {
            lines.leave(spectator(first, board, place))?;
        }
    }
    Ok(())
}

/// All leave, in the other order.
fn leave_back(lines: &mut Lines, first: u32, boards: u16, most: u16) -> Result<(), AllocError> {
    for place in (0..most).rev() {
        for board in (0..boards).rev() {
            lines.leave(spectator(first, board, place))?;
        }
    }
    Ok(())
}

/// A few moves on a board, which one spectator in eight takes.
fn play(
    alloc: Global,
    chance: &mut Chance,
    lines: &mut Lines,
    first: u32,
    board: u16,
    number: u16,
) -> Result<(), AllocError> {
    let Some(mut lawful) = start(number) else {
        return Ok(());
    };
    for _ in 0..PLIES {
        let Some((m, next)) = step(alloc, chance, &lawful, false)? else {
            break;
        };
        lines.submit(0, board, m)?;
        lawful = next;
        for place in 0..SPECTATORS {
            if place % 8 == 0 {
                lines.take(spectator(first, board, place))?;
            }
        }
    }
    Ok(())
}

/// The script of a crowd at this many boards.
fn script(alloc: Global, chance: &mut Chance, boards: u16) -> Result<Lines, AllocError> {
    let mut lines = Lines::new(alloc);
    let first = u32::from(chance.small(60000));
    let number = chance.small(960);
    for board in 0..boards {
        lines.open(board, start_of(number, board))?;
    }
    come(&mut lines, first, boards, SPECTATORS)?;
    for board in 0..boards {
        play(
            alloc,
            chance,
            &mut lines,
            first,
            board,
            start_of(number, board),
        )?;
    }
    leave(&mut lines, first, boards, SPECTATORS)?;
    come(&mut lines, first, boards, SPECTATORS / 4)?;
    leave_back(&mut lines, first, boards, SPECTATORS / 4)?;
    Ok(lines)
}

/// Runs the script of a crowd at this many boards.
fn run_crowd(
    alloc: Global,
    chance: &mut Chance,
    digest: &mut Digest,
    boards: u16,
) -> Result<(), AllocError> {
    let lines = script(alloc, chance, boards)?;
    if let Some(limits) = Limits::new(boards, 1024, 64, 1024) {
        run_script(alloc, digest, limits, &lines);
    }
    Ok(())
}

/// Runs the scripts of some crowds, one after the other, each at this many boards.
pub fn run(
    alloc: Global,
    chance: &mut Chance,
    digest: &mut Digest,
    boards: u16,
) -> Result<(), AllocError> {
    for _ in 0..CROWDS {
        run_crowd(alloc, chance, digest, boards)?;
    }
    Ok(())
}
