//! Lack of memory. If one allocation is refused (`rt try --test --fail-alloc N`, for each N in turn), the list of the legal moves says
//! so and is complete when it is asked for again. A position with more than 64 moves makes it grow while it is being filled.

use crate::tests::claims::claim;
use crate::tests::rules::reading::position_of;
use c960_rules::{Lawful, legal_moves};
use std::alloc::{AllocError, Global};

/// The position of N. Petrovic (1964) with 218 legal moves; no reachable position is known to have more.
const MOST_MOVES: &str = "R6R/3Q4/1Q4Q1/4Q3/2Q4Q/Q4Q2/pp1Q4/kBNN1KB1 w - - 0 1";

/// How many moves are listed.
fn listed(alloc: Global, lawful: &Lawful) -> Result<usize, AllocError> {
    Ok(legal_moves(alloc, lawful)?.len())
}

#[test]
fn a_long_list_of_moves_is_whole_or_wants_memory(rt: HostRuntime) {
    let position = position_of(&rt, MOST_MOVES);
    let first = listed(rt.alloc(), &position);
    let again = listed(rt.alloc(), &position);
    let is_whole = first == Ok(218);
    claim(&rt, is_whole || first == Err(AllocError), "the first list");
    let is_refused = again == Err(AllocError) && is_whole;
    claim(&rt, again == Ok(218) || is_refused, "the second list");
}
