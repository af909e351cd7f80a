//! Steps over boards with crowds of followers, each phase with the time that it takes. They run over a stepper, so that either kind of
//! relay is measured by the same code.

use c960_board::Move;
use relay_core::{BoardName, Reply, Spectator, Step, Stepper};
use std::alloc::{AllocError, Global};
use std::io;
use std::time::{Clock, Instant};

/// How many boards there are, how many spectators follow each, and how many moves are made on each.
#[derive(Clone, Copy)]
pub struct Crowd {
    /// 1 to 256.
    pub boards: u16,
    /// 1 to 1,024 on each board.
    pub followers: u16,
    /// 1 to 1,024 moves on each board.
    pub plies: u16,
}

/// What is asked for each board in turn.
#[derive(Drop)]
enum Asked {
    Submit(Move),
    /// The first spectator takes.
    Take,
    /// The first spectator leaves, and follows again.
    Return,
}

/// The name of a board: two letters.
fn name_of(board: u16) -> Option<BoardName> {
    let (high, low) = ((board / 16 % 16) as u8, (board % 16) as u8);
    BoardName::new(&[b'a' + high, b'a' + low])
}

/// The number of a spectator: each board has its own 1,024.
fn spectator(board: u16, follower: u16) -> Spectator {
    u32::from(board)
        .wrapping_mul(1024)
        .wrapping_add(u32::from(follower))
}

/// Adds the steps that open a board and make its spectators follow.
fn add_opening(steps: &mut Vec<Step>, board: u16, followers: u16) -> Result<(), AllocError> {
    let Some(name) = name_of(board) else {
        return Ok(());
    };
    steps.push(Step::Open(name, 518))?;
    for follower in 0..followers {
        steps.push(Step::Follow(spectator(board, follower), name, None))?;
    }
    Ok(())
}

/// Adds what is asked for a board.
fn add_asked(steps: &mut Vec<Step>, board: u16, asked: &Asked) -> Result<(), AllocError> {
    let Some(name) = name_of(board) else {
        return Ok(());
    };
    let first = spectator(board, 0);
    match asked {
        Asked::Submit(m) => steps.push(Step::Submit(name, *m))?,
        Asked::Take => steps.push(Step::Take(first))?,
        Asked::Return => {
            steps.push(Step::Leave(first))?;
            steps.push(Step::Follow(first, name, None))?;
        }
    }
    Ok(())
}

/// Adds what is asked for each board.
fn add_round(steps: &mut Vec<Step>, boards: u16, asked: &Asked) -> Result<(), AllocError> {
    for board in 0..boards {
        add_asked(steps, board, asked)?;
    }
    Ok(())
}

/// Makes the steps, and prints how many were accepted and how many microseconds they took. The steps are left empty.
fn timed<R: Print + Clock, S: Stepper>(
    rt: &R,
    what: &str,
    relay: &mut S,
    steps: &mut Vec<Step>,
) -> io::Result<()> {
    let begun = Instant::now(rt)?;
    let mut accepted: u64 = 0;
    for step in steps.iter() {
        if !matches!(relay.step(*step), Reply::Refused(_)) {
            accepted = accepted.wrapping_add(1);
        }
    }
    let took = begun.elapsed(rt)?.as_micros();
    steps.clear();
    println!(rt; "{what}: {accepted} steps in {took} microseconds")
}

/// Opens the boards and makes the crowds follow; makes the moves on each board in turn; lets the first spectator of each board take them;
/// and lets it leave and follow again, the same number of times.
pub fn measure<R: Print + Clock, S: Stepper>(
    rt: &R,
    alloc: Global,
    relay: &mut S,
    crowd: Crowd,
    moves: &[Move],
) -> io::Result<()> {
    let mut steps = Vec::new(alloc);
    for board in 0..crowd.boards {
        add_opening(&mut steps, board, crowd.followers)?;
    }
    timed(rt, "opened and followed", relay, &mut steps)?;
    for m in moves.iter().take(usize::from(crowd.plies)) {
        add_round(&mut steps, crowd.boards, &Asked::Submit(*m))?;
    }
    timed(rt, "submitted", relay, &mut steps)?;
    for _ in 0..crowd.plies {
        add_round(&mut steps, crowd.boards, &Asked::Take)?;
    }
    timed(rt, "took", relay, &mut steps)?;
    for _ in 0..crowd.plies {
        add_round(&mut steps, crowd.boards, &Asked::Return)?;
    }
    timed(rt, "left and followed", relay, &mut steps)
}
