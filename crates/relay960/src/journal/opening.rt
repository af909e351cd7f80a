//! A journal with which a relay goes on.

ghost use Rattle.std.specs.Prelude.{◌≡◌, IfOk, List, nat_lt, true};
ghost use Rattle.chained_lines.specs.Lines.{Line};
ghost use Rattle.relay_journal.specs.Bodies.{SaysEntries};
ghost use Rattle.relay_durable.specs.Keeping.{IsJournalOf};
ghost use Rattle.relay960.specs.Journals.{GoesOnBehind};

use crate::journal::contents::{Contents, contents_of, read_all};
use crate::journal::end::JournalEnd;
use crate::journal::folder::sync_folder;
use crate::journal::mending::set_aside;
use crate::serving::ServeFault;
use chained_lines::{Journal, NoteError, StableFile, StableStorage};
use relay_journal::{Entry, begin};
use std::alloc::Global;
use std::fs::{File, Files, OpenOptions, TryLockError};
use std::io;
use std::io::ErrorKind;
use std::os::unix::fs::OpenOptionsExt;

/// A journal with which a relay goes on, and what it says.
#[derive(Drop)]
pub struct Opened {
    /// The journal, behind its last line.
    pub journal: Journal<StableFile>,
    /// What its lines say behind the first.
    pub entries: Vec<Entry>,
}

/// Opens a file for reading and writing, and locks it, so that no second process writes to it. If there is none it is made, and only its
/// owner can read it.
///
/// # Errors
///
/// As the system's own calls, or another process has locked it, or it is no regular file.
fn lock<R: Files<File = File>>(rt: &R, path: &str) -> io::Result<File> {
    let file = OpenOptions::new()
        .read(true)
        .write(true)
        .create(true)
        .mode(0o600)
        .open(rt, path)?;
    if !file.metadata()?.is_file() {
        let message = "not a regular file";
        return Err(io::Error::new(ErrorKind::InvalidInput, message));
    }
    match file.try_lock() {
        Ok(()) => Ok(file),
        Err(TryLockError::WouldBlock) => {
            let message = "another process has it";
            Err(io::Error::new(ErrorKind::WouldBlock, message))
        }
        Err(TryLockError::Error(error)) => Err(error),
    }
}

/// Opens the journal with this path, or makes one. Nobody else can write to it while the process lasts. A write at its end that was cut
/// short is set aside. In a new one the first line is noted, but not committed yet.
///
/// # Errors
///
/// The file could not be opened, locked, read or mended, it is no journal or a damaged one, or there was no memory. A damaged journal is
/// left as it is.
pub fn open_journal<'a, R: Files<File = File> + Eprint>(
    rt: &R,
    alloc: Global,
    path: &'a str,
) -> Result<Opened, ServeFault<'a>>
    ensures { IfOk result (λ o. IsJournalOf ⟦<StableFile as StableStorage>⟧.contents ⟦<StableFile as StableStorage>⟧.synced o.journal o.entries.items) }
{
    let mut file = match lock(rt, path) {
        Ok(file) => file,
        Err(reason) => return Err(ServeFault::of_file(path, reason)),
    };
    let bytes = read_all(alloc, path, &mut file)?;
    let contents = contents_of(alloc, path, &bytes)?;
    if let Some(damage) = contents.damage() {
        return Err(ServeFault::damaged(path, damage));
    }
    let len = mended_len(rt, alloc, path, &file, bytes.len(), &contents)?;
    if contents.sound.lines == 0 {
        if let Err(reason) = sync_folder(rt, path) {
            return Err(ServeFault::of_file(path, reason));
        }
    }
    match journal_in(alloc, file, len, contents) {
        Ok(opened) => Ok(opened),
        Err(_) => Err(ServeFault::OutOfMemory),
    }
}

/// The journal in this file, which has so many bytes, and says this. If it has no line, the first is noted.
///
/// # Errors
///
/// There was no memory.
fn journal_in(
    alloc: Global,
    file: File,
    len: usize,
    contents: Contents<'_>,
) -> Result<Opened, NoteError>
    ensures journal { (ls : List Line) → SaysEntries ls contents.entry.entries.items → IfOk result (λ o.
        IsJournalOf ⟦<StableFile as StableStorage>⟧.contents ⟦<StableFile as StableStorage>⟧.synced o.journal o.entries.items) }
    ensures behind { nat_lt 0 contents.entry.sound.lines ≡ true → IfOk result (λ o. GoesOnBehind contents.entry.sound len o.journal) }
{
    let Contents { entries, sound, .. } = contents;
    let storage = StableFile::behind(file, sound.bytes as u64, len as u64);
    let mut journal = Journal::behind(alloc, storage, sound.seal);
    if sound.lines == 0 {
        begin(&mut journal)?;
    }
    Ok(Opened { journal, entries })
}

/// Takes a write that was cut short out of a journal whose file has so many bytes, if there is one. Returns how many it has then: those of
/// its lines, and zeros.
///
/// # Errors
///
/// They could not be set aside, or the journal could not be cut, or there was no memory.
fn mended_len<'a, R: Files<File = File> + Eprint>(
    rt: &R,
    alloc: Global,
    path: &'a str,
    file: &File,
    len: usize,
    contents: &Contents<'_>,
) -> Result<usize, ServeFault<'a>> {
    let at = contents.sound.bytes;
    match contents.end {
        JournalEnd::Torn(torn) => {
            set_aside(rt, alloc, path, file, at, torn)?;
            Ok(at)
        }
        JournalEnd::Whole | JournalEnd::Damaged(_) => Ok(len),
    }
}
