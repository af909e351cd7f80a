//! A storage that fails, or has no more room.

use super::files::{ENDS, ample, file, whole_lines, written};
use crate::tests::claims::{claim, claim_at};
use crate::tests::lines::memory::Memory;
use crate::tests::parts::front;
use chained_lines::{Journal, NO_SEAL, NoteError, sound_part};
use std::alloc::Global;
use std::process::Abort;

/// For each number of calls that are answered, two for a write: how many bytes were written, how many of them synced, and how many commits
/// were done.
static AT_CALLS: [(usize, usize, usize); 7] = [
    (0, 0, 0),
    (21, 0, 0),
    (21, 21, 1),
    (68, 21, 1),
    (68, 68, 2),
    (90, 68, 2),
    (90, 90, 3),
];

fn at_calls() -> &'static [(usize, usize, usize)] {
    &AT_CALLS
}

/// How many lines so many commits have.
const COMMITTED: [usize; 4] = [0, 1, 3, 4];

/// How many lines so many commits have, or more than there are.
fn committed(commits: usize) -> usize {
    match COMMITTED.get(commits) {
        Some(lines) => *lines,
        None => usize::MAX,
    }
}

/// Whatever a crash leaves of the storage, at least the committed lines are read.
fn claim_kept(rt: &impl Abort, storage: &Memory, done: usize, at: usize) {
    for left in storage.synced..=storage.bytes.len() {
        let lines = sound_part(front(&storage.bytes, left)).lines;
        claim_at(rt, committed(done) <= lines, "kept at", at);
    }
}

/// The storage is written to until its call of this number, and has then so many bytes and synced so many, in so many commits.
fn claim_calls(
    rt: &impl Abort,
    alloc: Global,
    file: &[u8],
    calls: usize,
    (bytes, synced, done): (usize, usize, usize),
) {
    let mut storage = ample(alloc, usize::MAX);
    storage.calls = calls;
    let (storage, commits) = written(alloc, storage);
    let is_front = storage.bytes.as_slice() == front(file, bytes);
    claim_at(rt, is_front, "bytes at", calls);
    let is_synced = storage.synced == synced && commits == done;
    claim_at(rt, is_synced, "commits at", calls);
    claim_kept(rt, &storage, commits, calls);
}

// A storage that fails at a call is written to no more, and what was committed before is kept.
#[test]
fn each_call_may_fail(rt: HostRuntime) {
    let alloc = rt.alloc();
    let file = file(alloc);
    for (calls, row) in at_calls().iter().enumerate() {
        claim_calls(&rt, alloc, &file, calls, *row);
    }
}

// So it is where it takes seven bytes at once.
#[test]
fn each_call_for_a_piece_may_fail(rt: HostRuntime) {
    let alloc = rt.alloc();
    let file = file(alloc);
    for calls in 0..18 {
        let mut storage = ample(alloc, 7);
        storage.calls = calls;
        let (storage, done) = written(alloc, storage);
        claim_at(&rt, file.starts_with(&storage.bytes), "front at", calls);
        claim_kept(&rt, &storage, done, calls);
    }
}

/// A storage with room for so many bytes has a front of the file, of which the whole lines are read.
fn claim_room(rt: &impl Abort, alloc: Global, file: &[u8], room: usize) {
    let mut storage = ample(alloc, 7);
    storage.room = room;
    let (storage, done) = written(alloc, storage);
    let is_front = storage.bytes.as_slice() == front(file, room);
    claim_at(rt, is_front, "front in a room of", room);
    let is_read = sound_part(&storage.bytes).lines == whole_lines(room);
    claim_at(rt, is_read, "lines in a room of", room);
    claim_kept(rt, &storage, done, room);
}

// A storage without room takes a front of the file, of which the whole lines are read.
#[test]
fn room_may_end_at_each_byte(rt: HostRuntime) {
    let alloc = rt.alloc();
    let file = file(alloc);
    for room in 0..=ENDS[3] {
        claim_room(&rt, alloc, &file, room);
    }
}

// A body with a line feed is not noted, and the journal goes on as if it had not been.
#[test]
fn a_line_feed_is_not_noted(rt: HostRuntime) {
    let alloc = rt.alloc();
    let mut journal = Journal::behind(alloc, ample(alloc, usize::MAX), NO_SEAL);
    let has_line_feed = journal.note(b"o\nne") == Err(NoteError::HasLineFeed);
    claim(&rt, has_line_feed, "a line feed");
    let is_noted = journal.note(b"one").is_ok() && journal.commit().is_ok();
    claim(&rt, is_noted, "the next");
    let storage = journal.into_storage();
    let is_first = storage.bytes.as_slice() == front(&file(alloc), ENDS[0]);
    claim(&rt, is_first, "the first line");
    drop(storage);
}
