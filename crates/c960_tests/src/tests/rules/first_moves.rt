//! Counts of the first moves of all 960 starting positions, as Stockfish 15.1 gives them with its option UCI_Chess960:
//! 18,882 positions after one ply and 371,766 after two, here in four parts.

use crate::tests::claims::claim;
use crate::tests::rules::counts::count;
use crate::tests::rules::reading::start;
use std::alloc::{AllocError, Global};

/// The sums of the counts after one ply and after two of 240 starting positions.
fn sums(alloc: Global, first: u16) -> Result<Option<(u64, u64)>, AllocError> {
    let mut one = 0u64;
    let mut two = 0u64;
    for number in first..first.wrapping_add(240) {
        let Some(position) = start(number) else {
            return Ok(None);
        };
        one = one.wrapping_add(count(alloc, &position, 1)?.unwrap_or(0));
        two = two.wrapping_add(count(alloc, &position, 2)?.unwrap_or(0));
    }
    Ok(Some((one, two)))
}

/// Whether these are the sums of the counts of 240 starting positions.
fn are_sums(alloc: Global, first: u16, one: u64, two: u64) -> bool {
    sums(alloc, first) == Ok(Some((one, two)))
}

#[test]
fn starts_0_to_239(rt: HostRuntime) {
    claim(&rt, are_sums(rt.alloc(), 0, 4708, 92452), "the sums");
}

#[test]
fn starts_240_to_479(rt: HostRuntime) {
    claim(&rt, are_sums(rt.alloc(), 240, 4712, 92672), "the sums");
}

#[test]
fn starts_480_to_719(rt: HostRuntime) {
    claim(&rt, are_sums(rt.alloc(), 480, 4763, 94567), "the sums");
}

#[test]
fn starts_720_to_959(rt: HostRuntime) {
    claim(&rt, are_sums(rt.alloc(), 720, 4699, 92075), "the sums");
}
