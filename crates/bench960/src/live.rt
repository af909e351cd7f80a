//! Plays live boards and takes from them, and reports on the error stream how long that took. The first argument is the number of boards.
//! If a number of followers and one of plies follow it, it only opens such boards.

use crate::moves::number_of;
use c960_board::Move;
use c960_game::Limits;
use live_board::{Board, Follower};
use relay_core::Taken;
use std::alloc::{AllocError, Global};
use std::thread::Threads;
use std::time::{Clock, CpuClock, Duration, Instant};
use std::{io, thread};

/// How many moves of the game are made: no more than a queue holds, so that nobody is ever closed.
const MOVES: usize = 1000;

/// Boards, and for each taker one follower on each board.
#[derive(Drop)]
struct Hall {
    boards: Vec<Board>,
    takers: Vec<Vec<Follower>>,
}

/// This many boards, with room for this many plies, and this many followers on each.
fn open_hall(alloc: Global, boards: u16, followers: u16, plies: u16) -> Result<Hall, AllocError> {
    let mut hall = Hall {
        boards: Vec::new(alloc),
        takers: Vec::new(alloc),
    };
    for _ in 0..followers {
        hall.takers.push(Vec::new(alloc))?;
    }
    let Some(limits) = Limits::new(1, followers.max(1), 1024, plies) else {
        return Ok(hall);
    };
    for _ in 0..boards {
        let Ok(mut board) = Board::open(alloc, 518, limits) else {
            return Err(AllocError);
        };
        for list in &mut hall.takers {
            let Ok(follower) = board.follow(None) else {
                return Err(AllocError);
            };
            list.push(follower)?;
        }
        hall.boards.push(board)?;
    }
    Ok(hall)
}

/// Makes the moves on each board, and returns how many there were.
fn play(boards: &mut Vec<Board>, moves: &[Move]) -> u64 {
    let mut count: u64 = 0;
    for board in boards {
        for m in moves {
            if board.submit(*m).is_ok() {
                count = count.wrapping_add(1);
            }
        }
    }
    count
}

/// Takes this many moves of each board, waiting for those that have not come yet, and returns how many there were.
fn take_all(followers: &mut Vec<Follower>, moves: usize) -> u64 {
    let mut count: u64 = 0;
    for follower in followers {
        for _ in 0..u64::MAX {
            if usize::from(follower.taken()) >= moves {
                break;
            }
            match follower.take() {
                Taken::Move(_, _) => count = count.wrapping_add(1),
                Taken::Nothing => thread::yield_now(),
                Taken::Over(_) | Taken::Cut => break,
            }
        }
    }
    count
}

/// Plays the boards if `played` says so, while each taker takes in a thread of its own; returns how many moves were taken.
/// The boards belong to the caller, so that the time in which they are dropped is not counted.
fn take_in_threads<R: Threads>(
    rt: &R,
    alloc: Global,
    boards: &mut Vec<Board>,
    takers: Vec<Vec<Follower>>,
    moves: &[Move],
    played: bool,
) -> Result<u64, AllocError> {
    let most = moves.len();
    let mut running = Vec::new(alloc);
    for mut list in takers {
        let Ok(handle) = thread::spawn(rt, move || take_all(&mut list, most)) else {
            return Err(AllocError);
        };
        running.push(handle)?;
    }
    if played {
        play(boards, moves);
    }
    let mut count: u64 = 0;
    for handle in running {
        count = count.wrapping_add(handle.join(rt));
    }
    Ok(count)
}

/// When something began, and the processor time that the process had used then.
#[derive(Clone, Copy)]
struct Beginning {
    wall: Instant,
    processor: Duration,
}

fn begin<R: Clock + CpuClock>(rt: &R) -> io::Result<Beginning> {
    Ok(Beginning {
        wall: Instant::now(rt)?,
        processor: rt.process_cpu_time()?,
    })
}

/// Prints how much was done, and on the error stream also how many nanoseconds passed and how much processor time it took.
fn tell<R: Print + Eprint + Clock + CpuClock>(
    rt: &R,
    since: Beginning,
    what: &str,
    followers: u16,
    count: u64,
) -> io::Result<()> {
    let wall = since.wall.elapsed(rt)?.as_nanos();
    let processor = rt
        .process_cpu_time()?
        .saturating_sub(since.processor)
        .as_nanos();
    println!(rt; "{what} {followers}: {count}")?;
    eprintln!(rt; "{what} {followers}: {count} {wall} {processor}")
}

/// Plays this many boards while their followers take nothing.
fn time_submits<R: Print + Eprint + Clock + CpuClock>(
    rt: &R,
    alloc: Global,
    moves: &[Move],
    boards: u16,
    followers: u16,
    plies: u16,
) -> io::Result<()> {
    let mut hall = open_hall(alloc, boards, followers, plies)?;
    let since = begin(rt)?;
    let count = play(&mut hall.boards, moves);
    tell(rt, since, "submits, followers", followers, count)
}

/// Lets this many takers take the moves, each in a thread of its own: while the boards are played, if `played` says so, or else afterwards.
fn time_takes<R: Print + Eprint + Clock + CpuClock + Threads>(
    rt: &R,
    alloc: Global,
    moves: &[Move],
    boards: u16,
    threads: u16,
    played: bool,
) -> io::Result<()> {
    let Hall { mut boards, takers } = open_hall(alloc, boards, threads, 1024)?;
    if !played {
        play(&mut boards, moves);
    }
    let since = begin(rt)?;
    let count = take_in_threads(rt, alloc, &mut boards, takers, moves, played)?;
    let what = if played {
        "takes meanwhile, threads"
    } else {
        "takes afterwards, threads"
    };
    tell(rt, since, what, threads, count)
}

/// Plays the first of these moves on each of this many boards, again and again with other followers; or opens the boards that the arguments
/// name.
pub fn run<R: Print + Eprint + Clock + CpuClock + Threads>(
    rt: &R,
    alloc: Global,
    moves: &[Move],
    words: &[String],
) -> io::Result<()> {
    let boards = number_of(words, 0).unwrap_or(1);
    if let (Some(followers), Some(plies)) = (number_of(words, 1), number_of(words, 2)) {
        return time_submits(rt, alloc, &[], boards, followers, plies);
    }
    let moves = moves.get(..MOVES).unwrap_or(moves);
    for followers in [0, 64, 1024] {
        time_submits(rt, alloc, moves, boards, followers, 1024)?;
    }
    for played in [false, true] {
        for threads in [1, 4, 64] {
            time_takes(rt, alloc, moves, boards, threads, played)?;
        }
    }
    Ok(())
}
