//! Counts positions with the list of legal moves, to be timed from outside.

use c960_board::{Position, read_fen};
use c960_rules::{Lawful, legal_moves, play};
use std::alloc::{AllocError, Global};
use std::io;

/// How many sequences of this many plies the position has.
fn count(alloc: Global, lawful: &Lawful, plies: u8) -> Result<u64, AllocError> {
    let moves = legal_moves(alloc, lawful)?;
    if plies <= 1 {
        return Ok(moves.len() as u64);
    }
    let mut sum: u64 = 0;
    let position = lawful.position();
    if position.half_moves() < 65535 && position.number() < 65535 {
        for m in moves.iter() {
            if let Some(next) = play(lawful, *m) {
                sum = sum.wrapping_add(count(alloc, &next, plies - 1)?);
            }
        }
    }
    Ok(sum)
}

/// The count of the position of a text, or 0 if it is not a position's.
fn count_of(alloc: Global, text: &[u8], plies: u8) -> Result<u64, AllocError> {
    let Ok(position) = read_fen(text) else {
        return Ok(0);
    };
    let Ok(lawful) = Lawful::of(position) else {
        return Ok(0);
    };
    count(alloc, &lawful, plies)
}

/// The three positions that are counted: the standard array, one full of castling and captures, and one with pawns that promote.
const STANDARD: &[u8] = b"rnbqkbnr/pppppppp/8/8/8/8/PPPPPPPP/RNBQKBNR w HAha - 0 1";

const MIDDLE: &[u8] = b"r3k2r/p1ppqpb1/bn2pnp1/3PN3/1p2P3/2N2Q1p/PPPBBPPP/R3K2R w HAha - 0 1";

const PAWNS: &[u8] = b"n1n5/PPPk4/8/8/8/8/4Kppp/5N1N b - - 0 1";

/// What is counted: without an argument few plies; with `deep` as many as take a second or more; with `starts` the 960 starts.
enum Job {
    Few,
    Deep,
    Starts,
}

/// The job that the first argument names.
fn job_of(words: &[String]) -> Job {
    match words.first() {
        Some(word) if word.as_str() == "deep" => Job::Deep,
        Some(word) if word.as_str() == "starts" => Job::Starts,
        _ => Job::Few,
    }
}

/// Counts the three positions.
fn count_positions(rt: &impl Print, alloc: Global, plies: [u8; 3]) -> io::Result<()> {
    let standard = count_of(alloc, STANDARD, plies[0])?;
    println!(rt; "518 {} {standard}", plies[0])?;
    let middle = count_of(alloc, MIDDLE, plies[1])?;
    println!(rt; "{} {middle}", plies[1])?;
    let pawns = count_of(alloc, PAWNS, plies[2])?;
    println!(rt; "{} {pawns}", plies[2])
}

/// Counts four plies from each start, a line each.
fn count_starts(rt: &impl Print, alloc: Global) -> io::Result<()> {
    for number in 0..960 {
        if let Some(position) = Position::start(number) {
            if let Ok(lawful) = Lawful::of(position) {
                let four = count(alloc, &lawful, 4)?;
                println!(rt; "{number} 4 {four}")?;
            }
        }
    }
    Ok(())
}

/// Counts what the first argument names.
pub fn run(rt: &impl Print, alloc: Global, words: &[String]) -> io::Result<()> {
    match job_of(words) {
        Job::Few => count_positions(rt, alloc, [4, 3, 4]),
        Job::Deep => count_positions(rt, alloc, [6, 5, 6]),
        Job::Starts => count_starts(rt, alloc),
    }
}
