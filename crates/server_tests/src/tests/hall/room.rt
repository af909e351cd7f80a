//! Memory of the tests themselves. If one allocation is refused (`rt try --test --fail-alloc N`), it is asked for again.

use std::alloc::{AllocError, Global};
use std::process::Abort;

/// What a test says if memory is refused twice.
pub const TWICE: &str = "one allocation is refused at the most";

/// An empty list with room for so many.
pub fn room<T: Drop>(rt: &impl Abort, alloc: Global, count: usize) -> Vec<T> {
    match Vec::with_capacity(alloc, count) {
        Ok(list) => list,
        Err(AllocError) => Vec::with_capacity(alloc, count).expect(rt, TWICE),
    }
}
