//! Journals as files.

use crate::tests::claims::{claim, claim_at};
use crate::tests::lines::memory::Memory;
use crate::tests::parts::front;
use chained_lines::{Journal, NO_SEAL, put_line};
use relay_journal::{FIRST_BODY, Unread, begin, read_entries};
use std::alloc::Global;
use std::process::Abort;

/// An open, a move and an end.
pub const BODIES: [&[u8]; 3] = [
    b"0123456789abcdef {\"board\":\"one\",\"cmd\":\"open\",\"start\":518}",
    b"- {\"board\":\"one\",\"cmd\":\"submit\",\"move\":\"e2e4\"}",
    b"- {\"board\":\"one\",\"cmd\":\"end\",\"how\":\"agreed\"}",
];

/// A file of lines of which the first says `first` and the others these bodies. Each is a write of its own.
pub fn file_of(rt: &impl Abort, alloc: Global, first: &[u8], bodies: &[&[u8]]) -> Vec<u8> {
    let mut text = Vec::new(alloc);
    let mut seal = put_line(&mut text, &NO_SEAL, true, first).expect(rt, "memory");
    for body in bodies {
        seal = put_line(&mut text, &seal, true, body).expect(rt, "memory");
    }
    text
}

/// An empty storage that answers so many calls.
pub fn storage_of(alloc: Global, calls: usize) -> Memory {
    Memory {
        bytes: Vec::new(alloc),
        synced: 0,
        piece: usize::MAX,
        room: usize::MAX,
        calls,
    }
}

/// The journal of these bodies, all synced.
pub fn journal_of(rt: &impl Abort, alloc: Global, bodies: &[&[u8]]) -> Journal<Memory> {
    let mut journal = Journal::behind(alloc, storage_of(alloc, usize::MAX), NO_SEAL);
    begin(&mut journal).expect(rt, "a first line");
    for body in bodies {
        journal.note(body).expect(rt, "a line");
    }
    journal.commit().expect(rt, "a commit");
    journal
}

/// How many entries are read of a file, or which line says none.
fn read(alloc: Global, file: &[u8]) -> Result<usize, Unread> {
    match read_entries(alloc, file) {
        Ok(entries) => Ok(entries.len()),
        Err(unread) => Err(unread),
    }
}

// A file without a whole line has no entry, and one of another kind is no journal.
#[test]
fn the_first_line_says_what_the_file_is(rt: HostRuntime) {
    let alloc = rt.alloc();
    claim(&rt, matches!(read(alloc, b""), Ok(0)), "nothing");
    let unsealed = read(alloc, b"relay960\n");
    claim(&rt, matches!(unsealed, Ok(0)), "a line without a seal");
    let file = file_of(&rt, alloc, b"relay960 journal 2", &BODIES);
    let other = read(alloc, &file);
    let is_other = matches!(other, Err(Unread::NoJournal));
    claim(&rt, is_other, "another first line");
}

/// How many whole lines a text has.
fn lines(text: &[u8]) -> usize {
    let mut count = 0usize;
    for byte in text {
        if *byte == b'\n' {
            count = count.wrapping_add(1);
        }
    }
    count
}

// Of each front of a journal the entries of its whole lines are read.
#[test]
fn each_front_is_read(rt: HostRuntime) {
    let alloc = rt.alloc();
    let file = file_of(&rt, alloc, FIRST_BODY, &BODIES);
    for cut in 0..=file.len() {
        let left = front(&file, cut);
        let entries = lines(left).saturating_sub(1);
        let is_read = matches!(read(alloc, left), Ok(count) if count == entries);
        claim_at(&rt, is_read, "entries of a front of", cut);
    }
}

// A line that says no entry is found by its number.
#[test]
fn a_line_without_an_entry_is_found(rt: HostRuntime) {
    let alloc = rt.alloc();
    for at in 0..BODIES.len() {
        let mut bodies = BODIES;
        bodies[at] = b"- {\"cmd\":\"boards\"}";
        let file = file_of(&rt, alloc, FIRST_BODY, &bodies);
        let found = matches!(read(alloc, &file), Err(Unread::NoEntry(number)) if number == at);
        claim_at(&rt, found, "no entry at", at);
    }
}
