//! A text file that only grows, and of which no crash takes what was synced. It has an entry a line. Each line is sealed by a digest over
//! all lines before it, and the first line of each write has a mark.
//!
//! So what is read of a file that a crash cut short is its front up to the last whole line; of a file that was changed, its front up to
//! the change. A change before the last write is told apart from a write that was cut short, since a later marked line stands behind it.
//! What the entries say is up to the caller.
#![tactic(auto)]

mod first;
mod journal;
mod later;
pub mod laws;
mod note_error;
mod seal;
mod sound;
mod splitting;
mod stable_file;
mod stable_storage;
mod storing;
mod writing;

pub use first::{FirstLine, first_line};
pub use journal::Journal;
pub use later::{LaterWrite, later_write};
pub use note_error::NoteError;
pub use seal::{NO_SEAL, SEAL_BYTES, Seal};
pub use sound::{SoundPart, sound_part};
pub use stable_file::StableFile;
pub use stable_storage::StableStorage;
pub use writing::put_line;
