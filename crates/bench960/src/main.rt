//! The benchmarks, one argument for each: `positions` counts positions, `relay` makes steps of a relay, `live` plays live boards. Without
//! an argument it makes a short run of each.
#![tactic(auto)]

mod crowds;
mod live;
mod moves;
mod positions;
mod relay;

use moves::read_moves;
use std::alloc::Global;
use std::process::ExitCode;
use std::thread::Threads;
use std::time::{Clock, CpuClock};
use std::{env, io};

/// What is run.
#[derive(Clone, Copy)]
enum Job {
    /// Each benchmark, run without arguments of its own.
    Each,
    Positions,
    Relay,
    Live,
}

/// The job that the first argument names, if there is one.
fn job_of(words: &[String]) -> Option<Job> {
    let Some(word) = words.get(1) else {
        return Some(Job::Each);
    };
    match word.as_str() {
        "positions" => Some(Job::Positions),
        "relay" => Some(Job::Relay),
        "live" => Some(Job::Live),
        _ => None,
    }
}

/// Runs the benchmarks of the job, with the arguments after its name.
fn run<R: Input + Print + Eprint + Clock + CpuClock + Threads>(
    rt: &R,
    alloc: Global,
    job: Job,
    words: &[String],
) -> io::Result<()> {
    match job {
        Job::Positions => positions::run(rt, alloc, words),
        Job::Relay => relay::run(rt, alloc, read_moves(rt, alloc)?.as_slice(), words),
        Job::Live => live::run(rt, alloc, read_moves(rt, alloc)?.as_slice(), words),
        Job::Each => {
            positions::run(rt, alloc, words)?;
            let moves = read_moves(rt, alloc)?;
            relay::run(rt, alloc, moves.as_slice(), words)?;
            live::run(rt, alloc, moves.as_slice(), words)
        }
    }
}

fn main(rt: HostRuntime) -> io::Result<ExitCode> {
    let alloc = rt.alloc();
    let words = env::args(&rt)?.collect::<Vec<String>>(alloc)?;
    let words = words.as_slice();
    let Some(job) = job_of(words) else {
        eprintln!(&rt; "the first word is positions, relay or live")?;
        return Ok(ExitCode::from(2));
    };
    run(&rt, alloc, job, words.get(2..).unwrap_or(&[]))?;
    Ok(ExitCode::SUCCESS)
}
