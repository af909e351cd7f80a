//! The rows of `sessions::rows`, through a connection that a hall answers.

use crate::tests::claims::claim_at;
use crate::tests::comparing::fast::shaken;
use crate::tests::parts::front;
use crate::tests::sessions::rows::{Row, input, rows};
use c960_game::Limits;
use relay_hall::Hall;
use std::alloc::Global;
use std::process::Abort;
use std::sync::Wait;

/// Whether the session of a peer that sends this ends so and answers so.
fn talks<R: Wait + Abort>(rt: &R, alloc: Global, hall: &mut Hall, row: &Row) -> bool {
    let (frames, cut, wanted, told, _) = *row;
    let bytes = input(alloc, frames).expect(rt, "memory");
    let until = bytes.len().saturating_sub(cut);
    let mut fast = shaken(rt, alloc, 1);
    fast.comes(rt, hall, front(&bytes, until));
    let (end, lines) = fast.goes(rt, hall);
    end == wanted && lines.as_slice() == told
}

#[test]
fn each_row_is_the_same_through_the_connections_of_the_program(rt: HostRuntime) {
    let limits = Limits::new(16, 64, 64, 1024).expect(&rt, "limits");
    let mut hall = Hall::new(rt.alloc(), limits, 0).expect(&rt, "memory");
    for (at, row) in rows().iter().enumerate() {
        claim_at(&rt, talks(&rt, rt.alloc(), &mut hall, row), "row", at);
    }
    drop(hall);
}
