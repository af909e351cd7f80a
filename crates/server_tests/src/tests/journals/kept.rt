//! A hall with the scribe of its journal.

use crate::tests::lines::memory::Memory;
use c960_game::Limits;
use chained_lines::Journal;
use relay_core::Step;
use relay_hall::{Hall, Key, Owner};
use relay_journal::{Entry, Scribe, Unfit, read_entries, recover};
use std::alloc::Global;
use std::process::Abort;

/// When the hall is started.
pub const NOW: u64 = 5_000;

/// A hall, and whoever goes on with its journal.
#[derive(Drop)]
pub struct Kept {
    alloc: Global,
    pub hall: Hall,
    pub scribe: Scribe<Memory>,
}

impl Kept {
    /// The hall of these entries, and whoever goes on with this journal.
    pub fn new(
        alloc: Global,
        limits: Limits,
        grace: u64,
        entries: &[Entry],
        journal: Journal<Memory>,
    ) -> Result<Kept, Unfit> {
        let (hall, scribe) = recover(alloc, limits, grace, NOW, entries, journal)?;
        Ok(Kept {
            alloc,
            hall,
            scribe,
        })
    }

    /// The hall hears a step.
    pub fn hears(&mut self, owner: &Owner, step: &Step) {
        let _ = self.hall.step(owner, step);
    }

    /// Whether what has happened in the hall is noted.
    pub fn notes(&mut self) -> bool {
        self.scribe.note(self.alloc, &self.hall).is_ok()
    }

    /// Whether what was noted is committed.
    pub fn commits(&mut self) -> bool {
        self.scribe.commit().is_ok()
    }

    /// The hall, and the entries of the journal.
    pub fn into_entries(self, rt: &impl Abort) -> (Hall, Vec<Entry>) {
        // A fault of the kit: it lays out an `Entry` in a `Vec` only if the body names the key inside it.
        let _key: Option<Key> = None;
        let storage = self.scribe.into_journal().into_storage();
        let entries = read_entries(self.alloc, &storage.bytes).expect(rt, "entries");
        drop(storage);
        (self.hall, entries)
    }

    /// How many entries the journal has.
    pub fn count(self, rt: &impl Abort) -> usize {
        let (hall, entries) = self.into_entries(rt);
        let count = entries.len();
        drop((hall, entries));
        count
    }
}
