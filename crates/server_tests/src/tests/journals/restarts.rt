//! Halls after a restart.

use super::files::{file_of, journal_of};
use super::kept::{Kept, NOW};
use crate::tests::claims::{claim, claim_at};
use c960_game::{Limits, Outcome};
use relay_hall::{Hall, Key};
use relay_journal::{Entry, FIRST_BODY, Unfit, read_entries};
use std::alloc::Global;
use std::process::Abort;

/// The first board is opened.
const OPENING: &[u8] = b"0123456789abcdef {\"board\":\"kept\",\"cmd\":\"open\",\"start\":518}";

/// Three boards: of a key, of nobody, and of the key again, whose game is over.
static BODIES: [&[u8]; 7] = [
    OPENING,
    b"- {\"board\":\"left\",\"cmd\":\"open\",\"start\":4}",
    b"0123456789abcdef {\"board\":\"over\",\"cmd\":\"open\",\"start\":518}",
    b"- {\"board\":\"kept\",\"cmd\":\"submit\",\"move\":\"e2e4\"}",
    b"- {\"board\":\"over\",\"cmd\":\"end\",\"how\":\"agreed\"}",
    b"- {\"board\":\"kept\",\"cmd\":\"submit\",\"move\":\"e7e5\"}",
    b"- {\"board\":\"kept\",\"cmd\":\"submit\",\"move\":\"g1f3\"}",
];

pub fn bodies() -> &'static [&'static [u8]] {
    &BODIES
}

/// The entries of the bodies.
fn entries(rt: &impl Abort, alloc: Global, bodies: &[&[u8]]) -> Vec<Entry> {
    let file = file_of(rt, alloc, FIRST_BODY, bodies);
    read_entries(alloc, &file).expect(rt, "the entries")
}

/// The hall of these bodies, with room for three boards of so many plies, and whoever goes on with their journal.
fn restarted(
    rt: &impl Abort,
    alloc: Global,
    bodies: &[&[u8]],
    plies: u16,
    grace: u64,
) -> Result<Kept, Unfit> {
    let limits = Limits::new(3, 4, 4, plies).expect(rt, "limits");
    let journal = journal_of(rt, alloc, bodies);
    let entries = entries(rt, alloc, bodies);
    let kept = Kept::new(alloc, limits, grace, &entries, journal);
    drop(entries);
    kept
}

/// The same, of bodies that fit.
pub fn fitting(rt: &impl Abort, alloc: Global, bodies: &[&[u8]], grace: u64) -> Kept {
    restarted(rt, alloc, bodies, 64, grace).expect(rt, "a hall")
}

/// Which of these bodies is refused, if games may have so many plies.
fn refused(rt: &impl Abort, alloc: Global, bodies: &[&[u8]], plies: u16) -> Option<usize> {
    match restarted(rt, alloc, bodies, plies, 30_000) {
        Err(Unfit::Refused(at)) => Some(at),
        other => {
            drop(other);
            None
        }
    }
}

/// Whether the board of this index has so many moves, and its game has ended so.
fn is_board(rt: &impl Abort, hall: &Hall, at: usize, plies: u16, end: Option<Outcome>) -> bool {
    let summary = hall.board(at).expect(rt, "a board").summary();
    summary.plies == plies && summary.outcome == end
}

/// Whether boards of the key wait, first until then.
fn waits_until(rt: &impl Abort, hall: &Hall, time: u64) -> bool {
    let key = Key::parse(b"0123456789abcdef").expect(rt, "a key");
    hall.waits(&key) && hall.next_due() == Some(time)
}

/// The game of the key goes on until its time has come.
fn claim_grace(rt: &impl Abort, hall: &mut Hall, until: u64) {
    hall.tick(until.saturating_sub(1));
    let goes_on = is_board(rt, hall, 0, 3, None);
    claim(rt, goes_on, "within the grace");
    hall.tick(until);
    let is_over = is_board(rt, hall, 0, 3, Some(Outcome::Abandoned));
    claim(rt, is_over, "behind the grace");
}

// Boards of a key go on, and wait for the whole grace from the restart. A game of nobody is ended as abandoned.
#[test]
fn boards_of_a_key_wait(rt: HostRuntime) {
    let mut kept = fitting(&rt, rt.alloc(), bodies(), 30_000);
    let hall = &mut kept.hall;
    claim(&rt, hall.len() == 3, "three boards");
    let is_so = is_board(&rt, hall, 0, 3, None);
    claim(&rt, is_so, "the game of the key");
    let is_so = is_board(&rt, hall, 1, 0, Some(Outcome::Abandoned));
    claim(&rt, is_so, "the game of nobody");
    let is_so = is_board(&rt, hall, 2, 0, Some(Outcome::Agreed));
    claim(&rt, is_so, "the game that was over");
    claim(&rt, waits_until(&rt, hall, NOW + 30_000), "the grace");
    claim_grace(&rt, hall, NOW + 30_000);
    drop(kept);
}

// Without a grace nobody can come back, and all games are ended.
#[test]
fn without_a_grace_all_games_are_ended(rt: HostRuntime) {
    let kept = fitting(&rt, rt.alloc(), bodies(), 0);
    let is_so = is_board(&rt, &kept.hall, 0, 3, Some(Outcome::Abandoned));
    claim(&rt, is_so, "the game of the key");
    claim(&rt, kept.hall.next_due().is_none(), "nothing waits");
    drop(kept);
}

/// How many boards the hall of the first so many bodies has.
fn boards_of(rt: &impl Abort, alloc: Global, count: usize) -> usize {
    let front = bodies().get(..count).unwrap_or(&[]);
    let kept = fitting(rt, alloc, front, 30_000);
    let count = kept.hall.len();
    drop(kept);
    count
}

// Each front of the entries is a hall, whose boards are those that were opened.
#[test]
fn each_front_is_a_hall(rt: HostRuntime) {
    for count in 0..=bodies().len() {
        let boards = boards_of(&rt, rt.alloc(), count);
        claim_at(&rt, boards == count.min(3), "boards of entries", count);
    }
}

// What smaller limits do not allow is refused at its place.
#[test]
fn what_does_not_fit_is_told(rt: HostRuntime) {
    let alloc = rt.alloc();
    let long = refused(&rt, alloc, bodies(), 2);
    claim(&rt, long == Some(6), "a third move");
    let doubled = refused(&rt, alloc, &[OPENING, OPENING], 64);
    claim(&rt, doubled == Some(1), "a board again");
}
