//! The chained lines of a file: what a crash leaves, what a change leaves, and a storage that fails. `memory` is a storage that can take
//! few bytes at a time, fill up, and fail at each call.

mod changes;
mod crashes;
mod failures;
mod files;
pub mod memory;
