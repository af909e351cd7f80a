//! The jobs that users wait for, to be timed from outside: `bench960_jobs JOB SEED SIZE` makes the input of a job from a seed, does the
//! job, and prints a digest of all its results. `bench960_jobs each SEED SIZE` does all of them, each of this small size.
#![tactic(auto)]

mod chance;
mod crowds;
mod digest;
mod frames;
mod games;
mod hall;
mod lines;
mod ports;
mod positions;
mod relays;
mod rounds;
mod walk;

use chance::Chance;
use digest::Digest;
use std::alloc::{AllocError, Global};
use std::process::ExitCode;
use std::{env, io};

/// A job.
#[derive(Clone, Copy)]
enum Job {
    /// Legal moves, states and texts of positions.
    Positions,
    /// Games over lines of moves.
    Games,
    /// Rounds of boards over scripts.
    Rounds,
    /// Crowds that come and leave, over scripts.
    Crowds,
    /// Both kinds of relay over lists of steps.
    Relays,
    /// Connections, followers and tapes.
    Ports,
}

/// All jobs, by their names.
const JOBS: [(&str, Job); 6] = [
    ("positions", Job::Positions),
    ("games", Job::Games),
    ("rounds", Job::Rounds),
    ("crowds", Job::Crowds),
    ("relays", Job::Relays),
    ("ports", Job::Ports),
];

/// Does a job of this size, and returns the digest of its results.
fn digest_of(alloc: Global, job: Job, seed: u32, size: u16) -> Result<u64, AllocError> {
    let mut chance = Chance::new(seed);
    let mut digest = Digest::new();
    match job {
        Job::Positions => positions::run(alloc, &mut chance, &mut digest, size)?,
        Job::Games => games::run(alloc, &mut chance, &mut digest, size)?,
        Job::Rounds => rounds::run(alloc, &mut chance, &mut digest, size)?,
        Job::Crowds => crowds::run(alloc, &mut chance, &mut digest, size)?,
        Job::Relays => relays::run(alloc, &mut chance, &mut digest, size)?,
        Job::Ports => ports::run(alloc, &mut chance, &mut digest, size)?,
    }
    Ok(digest.value())
}

/// Does the jobs of this name, and prints their digests. Returns whether there is one.
fn run(rt: &impl Print, alloc: Global, name: &str, seed: u32, size: u16) -> io::Result<bool> {
    let mut found = false;
    for (known, job) in JOBS.iter() {
        if name == *known || name == "each" {
            let value = digest_of(alloc, *job, seed, size)?;
            println!(rt; "{known} {value:016x}")?;
            found = true;
        }
    }
    Ok(found)
}

/// The numbers that follow a job's name: a seed and a size.
fn numbers_of(words: &[String]) -> Option<(u32, u16)> {
    let seed = words.get(2)?.parse::<u32>().ok()?;
    let size = words.get(3)?.parse::<u16>().ok()?;
    Some((seed, size))
}

fn main(rt: HostRuntime) -> io::Result<ExitCode> {
    let alloc = rt.alloc();
    let words = env::args(&rt)?.collect::<Vec<String>>(alloc)?;
    let words = words.as_slice();
    if let (Some(name), Some((seed, size))) = (words.get(1), numbers_of(words)) {
        if run(&rt, alloc, name.as_str(), seed, size)? {
            return Ok(ExitCode::SUCCESS);
        }
    }
    eprintln!(&rt;
        "bench960_jobs JOB SEED SIZE, where JOB is positions, games, rounds, crowds, relays, ports or each"
    )?;
    Ok(ExitCode::from(2))
}
