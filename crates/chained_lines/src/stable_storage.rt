//! What a journal writes to.

ghost use Rattle.std.specs.Prelude.{◌≡◌, ◌≤◌, ℕ, List, Option, None, OnOk};
ghost use Rattle.std.specs.Io.{WritesAtMost};
ghost use Rattle.std.specs.Io.KnownBytes.{Keeps, WriteAppends};
ghost use Rattle.chained_lines.specs.Storage.{IsSynced, SyncHasCause, WriteHasCause};

use std::io;

/// A file at whose end bytes are written. What a crash at some moment leaves of it is `IsLeft` of the bytes that were written and of how
/// many of them were synced before that moment.
pub trait StableStorage {
    /// All its bytes, where they are known. Nothing that is done here makes them known.
    ghost contents: { Self → Option (List ℕ) };

    /// How many of them, from the first on, no crash takes away.
    ghost synced: { Self → ℕ };

    /// How often it has failed, where that is known.
    ghost failures: { Self → Option ℕ };

    /// Writes some of the bytes, from the first on, at its end. Returns how many.
    ///
    /// # Errors
    ///
    /// It failed, or has no room, and has written none.
    fn append(&mut self, bytes: &[u8]) -> io::Result<usize>
        ensures bound { WritesAtMost result bytes.now }
        ensures bytes { WriteAppends (contents self.old) (contents self.new) result bytes.now }
        ensures synced { synced self.old ≤ synced self.new }
        ensures unknown { contents self.old ≡ None → contents self.new ≡ None }
        ensures cause { WriteHasCause (failures self.old) (failures self.new) result bytes.now };

    /// Afterwards no crash takes any of its bytes away.
    ///
    /// # Errors
    ///
    /// It failed. Which of the bytes that were not synced before would survive a crash is not known, even after a later sync: the system
    /// may have dropped them.
    fn sync(&mut self) -> io::Result<()>
        ensures bytes { Keeps (contents self.old) (contents self.new) }
        ensures synced { synced self.old ≤ synced self.new }
        ensures all { OnOk result (IsSynced (contents self.new) (synced self.new)) }
        ensures unknown { contents self.old ≡ None → contents self.new ≡ None }
        ensures cause { SyncHasCause (failures self.old) (failures self.new) result };

    /// Whether there is room for more than what goes on. It is no promise.
    fn has_room(&self) -> bool;
}
