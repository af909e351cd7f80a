//! A journal.

ghost use Rattle.std.specs.Prelude.{◌≡◌, ◌≤◌, ◌∷◌, [], ◌++◌, ◌↔◌, ◌==◌, true, false, List, length, not, None, OnErr, OnOk, IsErr, IsErrOf};
ghost use Rattle.chained_lines.specs.Lines.{Line, has_no_feed};
ghost use Rattle.chained_lines.specs.Storage.{Failed};
ghost use Rattle.chained_lines.specs.Journals.{HoldsLines, IsKnownFront, KeepsLines};
ghost use Rattle.chained_lines.specs.declared.note_error.NoteError.TheVariants.{HasLineFeed};

use crate::note_error::NoteError;
use crate::seal::Seal;
use crate::stable_storage::StableStorage;
use crate::storing::store;
use crate::writing::put_line;
use memchr::memchr;
use std::alloc::Global;
use std::io;
use std::io::ErrorKind;
use std::marker::Model;

/// Lines at the end of a stable storage. A line is noted first. Once it is committed, no crash takes it away.
///
/// Of the lines that are noted between two commits, the first has the mark. Contracts see a `JournalRecord`.
#[derive(Drop)]
pub struct Journal<S> {
    storage: S,
    /// The bytes of the lines that were noted since the last commit.
    noted: Vec<u8>,
    /// The seal of the last line.
    seal: Seal,
    /// Whether a commit has failed.
    has_failed: bool,
}

impl<S> Model for Journal<S> {
    ghost use Rattle.chained_lines.specs.Records.{JournalRecord};

    ghost Value = { JournalRecord S };

    ghost use Rattle.chained_lines.specs.Inner.{journal_of};

    ghost view = { journal_of };
}

impl<S: StableStorage> Journal<S> {
    /// A journal in a storage whose bytes are whole lines, synced, of which the last has this seal. If there are none, it is `NO_SEAL`.
    pub fn behind(alloc: Global, storage: S, seal: Seal) -> Self
        ensures { result ≡ record { storage = storage; noted = []; seal = seal; has_failed = false } }
    {
        Journal {
            storage,
            noted: Vec::new(alloc),
            seal,
            has_failed: false,
        }
    }

    /// Notes a line that says this.
    ///
    /// # Errors
    ///
    /// The body has a line feed, or there was no memory. Nothing is noted.
    pub fn note(&mut self, body: &[u8]) -> Result<(), NoteError>
        ensures noted { OnOk result ((ls : List Line) → HoldsLines S.contents S.synced self.old ls
            → HoldsLines S.contents S.synced self.new (ls ++ record { is_first = length self.old.noted == 0; body = body.now } ∷ [])) }
        ensures feed { IsErrOf result HasLineFeed ↔ (has_no_feed body.now ≡ false) }
        ensures unchanged { OnErr result (self.new ≡ self.old) }
        ensures storage { self.new.storage ≡ self.old.storage }
        ensures failed { self.new.has_failed ≡ self.old.has_failed }
    {
        if memchr(b'\n', body).is_some() {
            return Err(NoteError::HasLineFeed);
        }
        let is_first = self.noted.is_empty();
        self.seal = put_line(&mut self.noted, &self.seal, is_first, body)?;
        Ok(())
    }

    /// Writes what was noted, and syncs it. If nothing was, the storage is left alone.
    ///
    /// # Errors
    ///
    /// The storage failed, now or at an earlier commit. What was committed before is kept even so. From then on nothing is written and
    /// nothing is synced: a sync after a failed one may tell of bytes that the system has dropped. What the storage holds has to be read
    /// again.
    pub fn commit(&mut self) -> io::Result<()>
        ensures committed { OnOk result ((ls : List Line) → HoldsLines S.contents S.synced self.old ls
            → HoldsLines S.contents S.synced self.new ls × KeepsLines S.synced self.new ls) }
        ensures emptied { OnOk result (self.new.noted ≡ []) }
        ensures kept { S.synced self.old.storage ≤ S.synced self.new.storage }
        ensures front { (ls : List Line) → HoldsLines S.contents S.synced self.old ls → IsKnownFront (S.contents self.new.storage) ls }
        ensures unknown { S.contents self.old.storage ≡ None → S.contents self.new.storage ≡ None }
        ensures cause { self.old.has_failed ≡ false → OnErr result (Failed (S.failures self.old.storage) (S.failures self.new.storage)) }
        ensures failed { OnErr result (self.new.has_failed ≡ true) }
        ensures silent { self.old.has_failed ≡ true → IsErr result × (self.new ≡ self.old) }
    {
        if self.has_failed {
            return Err(io::Error::from(ErrorKind::Other));
        }
        if self.noted.is_empty() {
            return Ok(());
        }
        let stored = store(&self.noted, &mut self.storage);
        self.has_failed = stored.is_err();
        if !self.has_failed {
            self.noted.clear();
        }
        stored
    }

    /// Whether a line was noted since the last commit.
    pub fn has_noted(&self) -> bool
        ensures { result ≡ not (length self.now.noted == 0) }
    {
        !self.noted.is_empty()
    }

    /// Whether its storage has room for more than what goes on. It is no promise.
    pub fn has_room(&self) -> bool {
        self.storage.has_room()
    }

    /// The storage. What was noted since the last commit is not in it.
    pub fn into_storage(self) -> S
        ensures { result ≡ self.storage }
    {
        let Journal { storage, .. } = self;
        storage
    }
}
