//! The entries that a file of lines says.

ghost use Rattle.std.specs.Prelude.{◌≡◌, ℕ, drop, IfOk, IsErrOf};
ghost use Rattle.chained_lines.specs.Lines.{no_seal, read_lines};
ghost use Rattle.relay_journal.specs.Bodies.{AllBodies, BeginsOtherwise, IsUnread, SaysEntries};
ghost use Rattle.relay_journal.specs.declared.reading.Unread.TheVariants.{NoEntry, NoJournal, OutOfMemory};

use crate::bodies::entry_in;
use crate::entry::Entry;
use chained_lines::{NO_SEAL, first_line};
use relay_hall::Key;
use std::alloc::{AllocError, AllocFailed, Global};

/// What the first line of a journal says.
pub const FIRST_BODY: &[u8] = b"relay960 journal 1";

/// Why a file's entries could not be read.
#[derive(Clone, Copy, Debug, PartialEq, Eq)]
pub enum Unread {
    /// Its first line is another than a journal's.
    NoJournal,
    /// This line, counted from 0 behind the first, says no entry.
    NoEntry(usize),
    /// There was no memory.
    OutOfMemory,
}

impl From<AllocError> for Unread {
    ghost from_gives = { λ _ error. error ≡ OutOfMemory };

    fn from(_: AllocError) -> Unread {
        Unread::OutOfMemory
    }
}

impl<T: Drop> From<AllocFailed<T>> for Unread {
    ghost from_gives = { λ _ error. error ≡ OutOfMemory };

    fn from(_: AllocFailed<T>) -> Unread {
        Unread::OutOfMemory
    }
}

/// The entries of the lines that count behind a line with the seal `before`.
///
/// # Errors
///
/// A line that counts says no entry, or there was no memory.
fn read_behind(alloc: Global, before: &[u8; 16], bytes: &[u8]) -> Result<Vec<Entry>, Unread>
    ensures entries { IfOk result (λ entries. AllBodies (read_lines before.now bytes.now) entries.items) }
    ensures journal { IsErrOf result NoJournal → ⊥ }
    ensures unread { (at : ℕ) → IsErrOf result (NoEntry at) → IsUnread (read_lines before.now bytes.now) at }
{
    // A fault of the kit: it lays out an `Entry` in a `Vec` only if the body names the key inside it.
    let _key: Option<Key> = None;
    let mut entries = Vec::new(alloc);
    let mut rest = bytes;
    let mut seal = *before;
    while let Some(found) = first_line(&seal, rest) {
        let Some(entry) = entry_in(alloc, found.body)? else {
            return Err(Unread::NoEntry(entries.len()));
        };
        entries.push(entry)?;
        rest = found.rest;
        seal = found.seal;
    }
    Ok(entries)
}

/// The entries of the lines that count, from the beginning of a file.
///
/// # Errors
///
/// The first line is another than a journal's, a line that counts says no entry, or there was no memory.
pub fn read_entries(alloc: Global, bytes: &[u8]) -> Result<Vec<Entry>, Unread>
    ensures entries { IfOk result (λ entries. SaysEntries (read_lines no_seal bytes.now) entries.items) }
    ensures journal { IsErrOf result NoJournal → BeginsOtherwise (read_lines no_seal bytes.now) }
    ensures unread { (at : ℕ) → IsErrOf result (NoEntry at) → IsUnread (drop 1 (read_lines no_seal bytes.now)) at }
{
    let Some(first) = first_line(&NO_SEAL, bytes) else {
        return Ok(Vec::new(alloc));
    };
    if first.body != FIRST_BODY {
        return Err(Unread::NoJournal);
    }
    read_behind(alloc, &first.seal, first.rest)
}
