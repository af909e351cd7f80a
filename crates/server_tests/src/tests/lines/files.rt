//! The file that the tests look at: four lines, which were put in three writes.

use crate::tests::lines::memory::Memory;
use chained_lines::{Journal, NO_SEAL};
use std::alloc::Global;

/// Behind how many bytes each line ends: a seal of 16 digits, a mark, a body and a line feed.
pub const ENDS: [usize; 4] = [21, 50, 68, 90];

/// Where the last write begins.
pub const LAST_WRITE: usize = 68;

/// How many calls of a storage write and sync the file: two for each write.
pub const CALLS: usize = 6;

/// A storage that never fails but for want of memory, and takes so many bytes at once.
pub fn ample(alloc: Global, piece: usize) -> Memory {
    Memory {
        bytes: Vec::new(alloc),
        synced: 0,
        piece,
        room: usize::MAX,
        calls: usize::MAX,
    }
}

/// Notes and commits the lines of the file, until the storage fails. Returns the storage, and how many commits were done.
pub fn written(alloc: Global, storage: Memory) -> (Memory, usize) {
    let mut journal = Journal::behind(alloc, storage, NO_SEAL);
    let mut done = usize::from(commits(&mut journal, &[b"one"]));
    done += usize::from(commits(&mut journal, &[b"two, longer", b""]));
    done += usize::from(commits(&mut journal, &[b"four"]));
    (journal.into_storage(), done)
}

/// Notes these lines and commits them. Says whether all of that was done.
fn commits(journal: &mut Journal<Memory>, bodies: &[&[u8]]) -> bool {
    for body in bodies {
        if journal.note(body).is_err() {
            return false;
        }
    }
    journal.commit().is_ok()
}

/// The bytes of the file.
pub fn file(alloc: Global) -> Vec<u8> {
    let (storage, _) = written(alloc, ample(alloc, usize::MAX));
    let Memory { bytes, .. } = storage;
    bytes
}

/// How many lines end within so many bytes.
pub fn whole_lines(bytes: usize) -> usize {
    let mut count = 0usize;
    for end in ENDS {
        if end <= bytes {
            count = count.wrapping_add(1);
        }
    }
    count
}

/// How many bytes so many lines have.
pub fn end_of(lines: usize) -> usize {
    if lines == 0 {
        return 0;
    }
    match ENDS.get(lines - 1) {
        Some(end) => *end,
        None => 0,
    }
}

/// Changes one bit of the byte at this place.
pub fn flip(text: &mut Vec<u8>, at: usize) {
    if at < text.len() {
        text[at] ^= 1;
    }
}
