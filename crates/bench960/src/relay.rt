//! Makes steps of a relay, to be timed from outside. With `plain` or `live` and three numbers as arguments it makes steps over crowds,
//! which it times itself.

use crate::crowds::{Crowd, measure};
use crate::moves::number_of;
use c960_board::Move;
use c960_game::Limits;
use relay_core::{BoardName, Relay, Reply, Spectator, Step, Taken};
use relay_live::LiveRelay;
use std::alloc::{AllocError, Global};
use std::io;
use std::time::Clock;

/// The name of a board.
fn name_of(board: u8) -> Option<BoardName> {
    BoardName::new(&[board])
}

/// The number of a spectator: each board has its own 64.
fn spectator(board: u8, follower: u32) -> Spectator {
    u32::from(board).wrapping_mul(64).wrapping_add(follower)
}

/// Adds the steps that open a board and make its spectators follow.
fn add_opening(steps: &mut Vec<Step>, board: u8) -> Result<(), AllocError> {
    let Some(name) = name_of(board) else {
        return Ok(());
    };
    steps.push(Step::Open(name, 518))?;
    for follower in 0..64 {
        steps.push(Step::Follow(spectator(board, follower), name, None))?;
    }
    Ok(())
}

/// Adds the steps that make a move on a board and let the first `takers` of its followers take it.
fn add_move(steps: &mut Vec<Step>, board: u8, takers: u32, m: Move) -> Result<(), AllocError> {
    let Some(name) = name_of(board) else {
        return Ok(());
    };
    steps.push(Step::Submit(name, m))?;
    for follower in 0..takers {
        steps.push(Step::Take(spectator(board, follower)))?;
    }
    Ok(())
}

/// The steps that open the boards.
fn opening(alloc: Global, boards: &[u8]) -> Result<Vec<Step>, AllocError> {
    let mut steps = Vec::new(alloc);
    for board in boards {
        add_opening(&mut steps, *board)?;
    }
    Ok(steps)
}

/// The steps of the game of these moves on each board, each of whose moves the first `takers` followers take.
fn plies(
    alloc: Global,
    moves: &[Move],
    boards: &[u8],
    takers: u32,
) -> Result<Vec<Step>, AllocError> {
    let mut steps = Vec::new(alloc);
    for m in moves {
        for board in boards {
            add_move(&mut steps, *board, takers, *m)?;
        }
    }
    Ok(steps)
}

/// Whether the reply says that a move was played or taken, or that a spectator follows.
fn is_counted(reply: &Reply) -> bool {
    match reply {
        Reply::Played { outcome: None, .. } => true,
        Reply::Took(Taken::Move(_, _)) => true,
        Reply::Following { .. } => true,
        _ => false,
    }
}

/// How many of the replies are counted.
fn count(replies: &[Reply]) -> u64 {
    let mut sum: u64 = 0;
    for reply in replies {
        if is_counted(reply) {
            sum = sum.wrapping_add(1);
        }
    }
    sum
}

/// Plays this many games on each board, each move taken by 64 followers, and returns how many replies were counted.
fn play(alloc: Global, moves: &[Move], boards: &[u8], games: u32) -> Result<u64, AllocError> {
    let Some(limits) = Limits::new(16, 64, 64, 16384) else {
        return Ok(0);
    };
    let opening = opening(alloc, boards)?;
    let plies = plies(alloc, moves, boards, 64)?;
    let mut sum: u64 = 0;
    for _ in 0..games {
        let mut relay = Relay::new(alloc, limits)?;
        let opened = relay.run(opening.as_slice())?;
        sum = sum.wrapping_add(count(opened.as_slice()));
        let replies = relay.run(plies.as_slice())?;
        sum = sum.wrapping_add(count(replies.as_slice()));
    }
    Ok(sum)
}

/// After a game of these moves, follows it 10,000 times from a place and leaves again; returns how many replies were counted.
fn follow(alloc: Global, moves: &[Move], from: Option<u16>) -> Result<u64, AllocError> {
    let (Some(limits), Some(name)) = (Limits::new(1, 1, 1024, 16384), name_of(b'a')) else {
        return Ok(0);
    };
    let mut relay = Relay::new(alloc, limits)?;
    let mut steps = Vec::new(alloc);
    steps.push(Step::Open(name, 518))?;
    relay.run(steps.as_slice())?;
    let plies = plies(alloc, moves, b"a", 0)?;
    relay.run(plies.as_slice())?;
    let mut visits = Vec::new(alloc);
    for _ in 0..1000 {
        visits.push(Step::Follow(0, name, from))?;
        visits.push(Step::Leave(0))?;
    }
    let mut sum: u64 = 0;
    for _ in 0..10 {
        let replies = relay.run(visits.as_slice())?;
        sum = sum.wrapping_add(count(replies.as_slice()));
    }
    Ok(sum)
}

/// Which kind of relay is measured.
#[derive(Clone, Copy)]
enum Kind {
    Plain,
    Live,
}

/// What is measured if the arguments name it: the kind of relay, boards, followers a board, and moves a board.
fn named(words: &[String]) -> Option<(Kind, Crowd, Limits)> {
    let kind = match words.first()?.as_str() {
        "plain" => Kind::Plain,
        "live" => Kind::Live,
        _ => return None,
    };
    let crowd = Crowd {
        boards: number_of(words, 1)?,
        followers: number_of(words, 2)?,
        plies: number_of(words, 3)?,
    };
    let limits = Limits::new(crowd.boards, crowd.followers, 1024, 16384)?;
    Some((kind, crowd, limits))
}

/// Plays the games that are timed from outside, and prints how many replies were counted.
fn games(rt: &impl Print, alloc: Global, moves: &[Move]) -> io::Result<()> {
    let one = play(alloc, moves, b"a", 13)?;
    println!(rt; "1 board, 64 followers: {one}")?;
    let sixteen = play(alloc, moves, b"abcdefghijklmnop", 1)?;
    println!(rt; "16 boards, 64 followers each: {sixteen}")?;
    let now = follow(alloc, moves, None)?;
    println!(rt; "follows from the present: {now}")?;
    let back = follow(alloc, moves, Some(250))?;
    println!(rt; "follows from 1,000 plies back: {back}")
}

/// Makes the steps of these moves: of the games, or over the crowd that the arguments name.
pub fn run<R: Print + Clock>(
    rt: &R,
    alloc: Global,
    moves: &[Move],
    words: &[String],
) -> io::Result<()> {
    match named(words) {
        None => games(rt, alloc, moves),
        Some((Kind::Plain, crowd, limits)) => {
            measure(rt, alloc, &mut Relay::new(alloc, limits)?, crowd, moves)
        }
        Some((Kind::Live, crowd, limits)) => measure(
            rt,
            alloc,
            &mut LiveRelay::new(alloc, limits)?,
            crowd,
            moves,
        ),
    }
}
