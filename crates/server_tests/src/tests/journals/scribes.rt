//! What is written of a hall, event by event.

use super::files::storage_of;
use super::kept::Kept;
use super::restarts::{bodies, fitting};
use crate::tests::claims::{claim, claim_at};
use c960_board::{Colour, read_move};
use c960_game::{Ending, Limits};
use chained_lines::{Journal, NO_SEAL};
use relay_core::{BoardName, Step};
use relay_hall::{Hall, Key, Owner, Shown};
use relay_journal::{Entry, begin};
use std::alloc::Global;
use std::process::Abort;

/// Two keys, as digests in hex.
const KEYS: [&[u8]; 2] = [
    b"00112233445566778899aabbccddeeff00112233445566778899aabbccddeeff",
    b"ffeeddccbbaa99887766554433221100ffeeddccbbaa99887766554433221100",
];

/// Who says it, of which board, and what.
type Said = (usize, &'static str, &'static str);

/// Who says what: the place of a key, or of nobody; a board; and `open`, a move, or how its game is ended. There are a mate, a resignation
/// and a claim, and a game that goes on.
static SAID: [Said; 20] = [
    (0, "mate", "open"),
    (0, "mate", "f2f3"),
    (2, "resigned", "open"),
    (0, "mate", "e7e5"),
    (1, "claimed", "open"),
    (1, "claimed", "g1f3"),
    (1, "claimed", "g8f6"),
    (2, "resigned", "d2d4"),
    (1, "claimed", "f3g1"),
    (1, "claimed", "f6g8"),
    (2, "resigned", "black resigns"),
    (0, "mate", "g2g4"),
    (1, "claimed", "g1f3"),
    (1, "claimed", "g8f6"),
    (0, "mate", "d8h4"),
    (1, "claimed", "f3g1"),
    (1, "claimed", "f6g8"),
    (1, "claimed", "white claims"),
    (0, "goes-on", "open"),
    (0, "goes-on", "e2e4"),
];

fn all_said() -> &'static [Said] {
    &SAID
}

/// The step of these words.
fn step_of(rt: &impl Abort, board: &str, words: &str) -> Step {
    let board = BoardName::new(board.as_bytes()).expect(rt, board);
    match words {
        "open" => Step::Open(board, 518),
        "black resigns" => Step::End(board, Ending::Resigns(Colour::Black)),
        "white claims" => Step::End(board, Ending::ClaimThreefold(Colour::White)),
        _ => Step::Submit(board, read_move(words.as_bytes()).expect(rt, words)),
    }
}

/// The connection with the key of this place, or without one.
fn owner_of(rt: &impl Abort, at: usize) -> Owner {
    let key = match KEYS.get(at) {
        Some(text) => Some(Key::parse(text).expect(rt, "a key")),
        None => None,
    };
    Owner {
        key,
        opener: at as u64,
    }
}

/// The limits of a hall with room for four boards.
fn limits(rt: &impl Abort) -> Limits {
    Limits::new(4, 4, 4, 64).expect(rt, "limits")
}

/// A hall, and the scribe of a new journal in a storage that answers so many calls.
fn started(rt: &impl Abort, alloc: Global, calls: usize) -> Kept {
    let mut journal = Journal::behind(alloc, storage_of(alloc, calls), NO_SEAL);
    begin(&mut journal).expect(rt, "a first line");
    Kept::new(alloc, limits(rt), 30_000, &[], journal).expect(rt, "a hall")
}

/// The hall of these entries.
fn made_again(rt: &impl Abort, alloc: Global, entries: &[Entry]) -> Kept {
    let journal = Journal::behind(alloc, storage_of(alloc, 0), NO_SEAL);
    Kept::new(alloc, limits(rt), 30_000, entries, journal).expect(rt, "a hall")
}

/// This is said.
fn say(rt: &impl Abort, kept: &mut Kept, said: &Said) {
    let (who, board, words) = *said;
    kept.hears(&owner_of(rt, who), &step_of(rt, board, words));
}

/// This is said, and noted.
fn say_noted(rt: &impl Abort, kept: &mut Kept, said: &Said) {
    say(rt, kept, said);
    claim(rt, kept.notes(), "noted");
}

/// The journal has an entry for each event.
fn claim_all(rt: &impl Abort, kept: Kept) {
    let is_whole = kept.count(rt) == all_said().len();
    claim(rt, is_whole, "an entry for each event");
}

/// Whether a board belongs to the key of this text.
fn belongs_to(rt: &impl Abort, board: &Shown, text: &[u8]) -> bool {
    board.belongs_to(&Key::parse(text).expect(rt, "a key"))
}

/// Whether the boards of this index are one in two halls: their games, and whose they are.
fn is_same(rt: &impl Abort, a: &Hall, b: &Hall, at: usize) -> bool {
    let a = a.board(at).expect(rt, "a board");
    let b = b.board(at).expect(rt, "a board");
    let mut is_same = a.summary() == b.summary();
    for text in KEYS {
        is_same &= belongs_to(rt, &a, text) == belongs_to(rt, &b, text);
    }
    is_same
}

/// The boards are made again of the entries.
fn claim_made_again(rt: &impl Abort, alloc: Global, kept: Kept) {
    let (hall, entries) = kept.into_entries(rt);
    let is_whole = entries.len() == all_said().len();
    claim(rt, is_whole, "an entry for each event");
    let again = made_again(rt, alloc, &entries);
    claim(rt, again.hall.len() == 4, "four boards");
    for at in 0..4 {
        claim_at(rt, is_same(rt, &hall, &again.hall, at), "the board", at);
    }
    drop((hall, entries, again));
}

// Each event makes the entry that it is, and the boards are made again of the entries.
#[test]
fn what_is_written_is_made_again(rt: HostRuntime) {
    let mut kept = started(&rt, rt.alloc(), usize::MAX);
    for said in all_said() {
        say_noted(&rt, &mut kept, said);
        claim(&rt, !kept.scribe.is_settled(), "not settled");
        claim(&rt, kept.commits(), "committed");
        claim(&rt, kept.scribe.is_settled(), "settled");
    }
    claim_made_again(&rt, rt.alloc(), kept);
}

// What was noted together is committed together, and nothing is noted twice.
#[test]
fn nothing_is_noted_twice(rt: HostRuntime) {
    let mut kept = started(&rt, rt.alloc(), usize::MAX);
    for said in all_said() {
        say_noted(&rt, &mut kept, said);
    }
    claim(&rt, kept.commits(), "committed");
    claim(&rt, kept.notes(), "noted again");
    claim(&rt, kept.scribe.is_settled(), "nothing was noted");
    claim_all(&rt, kept);
}

// What happened between two notes is noted board by board.
#[test]
fn many_events_are_noted_at_once(rt: HostRuntime) {
    let mut kept = started(&rt, rt.alloc(), usize::MAX);
    for said in all_said() {
        say(&rt, &mut kept, said);
    }
    claim(&rt, kept.notes(), "noted");
    claim(&rt, kept.commits(), "committed");
    claim_all(&rt, kept);
}

/// How many entries there are once a recovery with this grace is committed.
fn after_recovery(rt: &impl Abort, alloc: Global, grace: u64) -> usize {
    let mut kept = fitting(rt, alloc, bodies(), grace);
    claim(rt, !kept.scribe.is_settled(), "ends were noted");
    claim(rt, kept.commits(), "committed");
    kept.count(rt)
}

// A recovery notes what it ends: the game of nobody, and without a grace that of the key, too.
#[test]
fn what_a_recovery_ends_is_noted(rt: HostRuntime) {
    let count = after_recovery(&rt, rt.alloc(), 30_000);
    claim(&rt, count == bodies().len() + 1, "the game of nobody");
    let count = after_recovery(&rt, rt.alloc(), 0);
    claim(&rt, count == bodies().len() + 2, "the game of the key");
}

// After a failed commit nothing is noted or written any more.
#[test]
fn a_failed_scribe_stays_failed(rt: HostRuntime) {
    let mut kept = started(&rt, rt.alloc(), 2);
    claim(&rt, kept.commits(), "the first line");
    say_noted(&rt, &mut kept, &(0, "mate", "open"));
    claim(&rt, !kept.commits(), "a write that fails");
    let has_failed = kept.scribe.has_failed() && !kept.scribe.is_settled();
    claim(&rt, has_failed, "it has failed");
    claim(&rt, !kept.notes(), "nothing is noted");
    claim(&rt, !kept.commits(), "nothing is written");
    claim(&rt, kept.count(&rt) == 0, "the first line alone");
}

// A key that no line tells fails the scribe.
#[test]
fn a_short_key_is_not_noted(rt: HostRuntime) {
    let mut kept = started(&rt, rt.alloc(), usize::MAX);
    let owner = Owner {
        key: Key::parse(b"0123456789abcdef"),
        opener: 0,
    };
    kept.hears(&owner, &step_of(&rt, "short", "open"));
    claim(&rt, !kept.notes(), "not noted");
    claim(&rt, kept.scribe.has_failed(), "it has failed");
    drop(kept);
}
