//! Whoever keeps a journal of a hall.

ghost use Rattle.std.specs.Prelude.{◌≡◌, ◌≤◌, ◌∷◌, ◌==◌, ◌&&◌, [], true, false, not, length, List, None, IfOk, IsErr, OnErr, OnOk};
ghost use Rattle.chained_lines.specs.Journals.{HoldsLines, KeepsLines, IsKnownFront};
ghost use Rattle.chained_lines.specs.Lines.{Line};
ghost use Rattle.chained_lines.specs.Storage.{Failed};
ghost use Rattle.relay_hall.specs.Record.{FloorRecord, HallRecord};
ghost use Rattle.relay_hall.specs.Runs.{HallEvent, HallTold, HallStep, IsReached};
ghost use Rattle.relay_journal.specs.Bodies.{first_body};
ghost use Rattle.relay_journal.specs.Differences.{AllGoOn, missing};
ghost use Rattle.relay_journal.specs.Fitting.{FitsOn};
ghost use Rattle.relay_journal.specs.Kept.{kept_of};
ghost use Rattle.relay_journal.specs.Scribes.{noted_in};
ghost use Rattle.relay_journal.specs.Writing.{HoldsIfKnown, IsWritten};

use crate::noted::{Noted, keep_noted};
use crate::reading::FIRST_BODY;
use crate::writing::note_all;
use chained_lines::{Journal, NoteError, StableStorage};
use relay_hall::Hall;
use std::alloc::{AllocError, Global};
use std::io;
use std::io::ErrorKind;
use std::marker::Model;

/// Keeps a journal of a hall, by comparing its boards with what was noted of them: nothing needs to be known of what has happened. Whoever
/// owns it lets it note behind each event of the hall, and commits before anybody hears of what was noted. Contracts see a `ScribeRecord`.
#[derive(Drop)]
pub struct Scribe<S> {
    journal: Journal<S>,
    /// What was noted of each board, in the order of opening.
    noted: Vec<Noted>,
    /// Whether something could not be noted, or a commit has failed.
    has_failed: bool,
}

impl<S> Model for Scribe<S> {
    ghost use Rattle.relay_journal.specs.Scribes.{ScribeRecord};

    ghost Value = { ScribeRecord S };

    ghost use Rattle.relay_journal.specs.Inner.{scribe_of};

    ghost view = { scribe_of };
}

/// Notes the first line of a journal that has none.
///
/// # Errors
///
/// There was no memory.
pub fn begin<S: StableStorage>(journal: &mut Journal<S>) -> Result<(), NoteError>
    ensures begun { OnOk result (HoldsIfKnown S.contents S.synced journal.old []
        → HoldsIfKnown S.contents S.synced journal.new (record { is_first = true; body = first_body } ∷ [])) }
    ensures storage { journal.new.storage ≡ journal.old.storage }
{
    journal.note(FIRST_BODY)
}

impl<S: StableStorage> Scribe<S> {
    /// Whoever goes on with a journal that stands for the boards of this hall.
    ///
    /// # Errors
    ///
    /// There was no memory.
    pub(crate) fn behind(
        alloc: Global,
        journal: Journal<S>,
        hall: &Hall,
    ) -> Result<Scribe<S>, AllocError>
    where
        S: Drop,
        ensures { IfOk result (λ s. s ≡ record { journal = journal; noted = noted_in hall.now.floor; has_failed = false }) }
    {
        let mut noted = Vec::new(alloc);
        keep_noted(&mut noted, hall)?;
        Ok(Scribe {
            journal,
            noted,
            has_failed: false,
        })
    }

    /// Notes what is missing of the boards, unless it has failed, and keeps that nothing is.
    ///
    /// # Errors
    ///
    /// There was no memory, or no line tells the key of an owner. Some of what was missing may have been noted.
    fn note_missing(&mut self, alloc: Global, hall: &Hall) -> Result<(), NoteError>
        ensures onward { (f : FloorRecord) → AllGoOn (kept_of f) (kept_of hall.now.floor)
            → FitsOn f (missing (kept_of f) (kept_of hall.now.floor)) hall.now.floor → IsWritten S.contents S.synced self.old f
            → OnOk result (IsWritten S.contents S.synced self.new hall.now.floor) }
        ensures storage { self.new.journal.storage ≡ self.old.journal.storage }
        ensures failed { self.new.has_failed ≡ self.old.has_failed }
        ensures reached { IsReached hall.now }
    {
        note_all(&mut self.journal, alloc, hall, &self.noted)?;
        keep_noted(&mut self.noted, hall)?;
        Ok(())
    }

    /// Notes what is missing of the boards of a hall, behind an event.
    ///
    /// # Errors
    ///
    /// There was no memory, or no line tells the key of an owner: one that has fewer than 64 bytes. From then on it fails, and nothing is
    /// committed: what is not noted would be missing in what comes behind it.
    pub fn note(&mut self, alloc: Global, hall: &Hall) -> Result<(), NoteError>
        ensures event { (k : HallRecord) (e : HallEvent) (t : HallTold) → HallStep k e t hall.now
            → IsWritten S.contents S.synced self.old k.floor → OnOk result (IsWritten S.contents S.synced self.new hall.now.floor) }
        ensures nothing { IsWritten S.contents S.synced self.old hall.now.floor
            → OnOk result (IsWritten S.contents S.synced self.new hall.now.floor) }
        ensures storage { self.new.journal.storage ≡ self.old.journal.storage }
        ensures failed { OnErr result (self.new.has_failed ≡ true) }
        ensures silent { self.old.has_failed ≡ true → IsErr result × (self.new ≡ self.old) }
    {
        if self.has_failed {
            return Err(NoteError::OutOfMemory);
        }
        let noted = self.note_missing(alloc, hall);
        self.has_failed = noted.is_err();
        noted
    }

    /// Writes what was noted, and syncs it. If nothing was, the storage is left alone.
    ///
    /// # Errors
    ///
    /// The storage failed, or something had failed before. What was committed before is kept even so. From then on nothing is written.
    pub fn commit(&mut self) -> io::Result<()>
        ensures written { (f : FloorRecord) → IsWritten S.contents S.synced self.old f
            → OnOk result (IsWritten S.contents S.synced self.new f) }
        ensures committed { OnOk result ((ls : List Line) → HoldsLines S.contents S.synced self.old.journal ls
            → HoldsLines S.contents S.synced self.new.journal ls × KeepsLines S.synced self.new.journal ls) }
        ensures emptied { OnOk result (self.new.journal.noted ≡ []) }
        ensures kept { S.synced self.old.journal.storage ≤ S.synced self.new.journal.storage }
        ensures front { self.old.has_failed ≡ false → (ls : List Line) → HoldsLines S.contents S.synced self.old.journal ls
            → IsKnownFront (S.contents self.new.journal.storage) ls }
        ensures unknown { S.contents self.old.journal.storage ≡ None → S.contents self.new.journal.storage ≡ None }
        ensures cause { self.old.has_failed ≡ false → self.old.journal.has_failed ≡ false
            → OnErr result (Failed (S.failures self.old.journal.storage) (S.failures self.new.journal.storage)) }
        ensures failed { OnErr result (self.new.has_failed ≡ true) }
        ensures silent { self.old.has_failed ≡ true → IsErr result × (self.new ≡ self.old) }
    {
        if self.has_failed {
            return Err(io::Error::from(ErrorKind::Other));
        }
        let committed = self.journal.commit();
        self.has_failed = committed.is_err();
        committed
    }

    /// Whether all that was noted is committed, and nothing has failed.
    pub fn is_settled(&self) -> bool
        ensures { result ≡ (not self.now.has_failed && (length self.now.journal.noted == 0)) }
    {
        !self.has_failed && !self.journal.has_noted()
    }

    /// Its journal. What was noted since the last commit is not in the storage.
    pub fn into_journal(self) -> Journal<S>
        ensures { result ≡ self.journal }
    {
        let Scribe { journal, .. } = self;
        journal
    }

    /// Whether something could not be noted, or a commit has failed.
    pub fn has_failed(&self) -> bool
        ensures { result ≡ self.now.has_failed }
    {
        self.has_failed
    }

    /// Whether its journal has room for more than what goes on. It is no promise.
    pub fn has_room(&self) -> bool {
        self.journal.has_room()
    }
}
