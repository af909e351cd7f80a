//! What a journal says.

ghost use Rattle.std.specs.Prelude.{drop, IfOk};
ghost use Rattle.chained_lines.specs.Lines.{no_seal, read_lines};
ghost use Rattle.relay_journal.specs.Bodies.{SaysEntries};
ghost use Rattle.relay960.specs.JournalEnds.{IsEnd};
ghost use Rattle.relay960.specs.Journals.{IsSound};

use crate::journal::damage::{JournalDamage, Place};
use crate::journal::end::{JournalEnd, end_of};
use crate::serving::ServeFault;
use chained_lines::{LaterWrite, NO_SEAL, SoundPart, put_line, sound_part};
use relay_journal::{Entry, FIRST_BODY, Unread, read_entries};
use std::alloc::{AllocError, Global};
use std::fs::File;
use std::io::Read;
use std::{fmt, io};

/// What a journal says, and how it ends.
#[derive(Drop)]
pub(super) struct Contents<'a> {
    /// What its lines say behind the first.
    pub entries: Vec<Entry>,
    /// The lines that count.
    pub sound: SoundPart,
    /// What stands behind them.
    pub end: JournalEnd<'a>,
}

impl<'a> Contents<'a> {
    /// Where the lines end that count.
    fn place(&self) -> Place {
        Place {
            line: self.sound.lines.saturating_add(1),
            byte: self.sound.bytes,
        }
    }

    /// Where a line begins of which it is known where it stands behind the lines that count.
    fn place_of(&self, later: LaterWrite) -> Place {
        Place {
            line: self.place().line.saturating_add(later.line),
            byte: self.sound.bytes.saturating_add(later.byte),
        }
    }

    /// What has changed in it, if something has.
    pub(super) fn damage(&self) -> Option<JournalDamage> {
        match self.end {
            JournalEnd::Damaged(later) => {
                Some(JournalDamage::Changed(self.place(), self.place_of(later)))
            }
            JournalEnd::Whole | JournalEnd::Torn(_) => None,
        }
    }
}

/// How it ends: `whole`, `torn at byte 312 (40 bytes)`, or what has changed.
impl<'a> fmt::Display for Contents<'a> {
    fn fmt<W: fmt::Write>(&self, f: &mut fmt::Formatter<W>) -> fmt::Result {
        match self.end {
            JournalEnd::Whole => f.write_str("whole"),
            JournalEnd::Torn(torn) => write!(
                f,
                "torn at byte {} ({} bytes)",
                self.sound.bytes,
                torn.len()
            ),
            JournalEnd::Damaged(later) => {
                let changed = JournalDamage::Changed(self.place(), self.place_of(later));
                write!(f, "{changed}")
            }
        }
    }
}

/// All bytes of a file, from where it is read.
///
/// # Errors
///
/// It could not be read, or there was no memory.
pub(super) fn read_all<'a>(
    alloc: Global,
    path: &'a str,
    file: &mut File,
) -> Result<Vec<u8>, ServeFault<'a>> {
    let mut bytes = Vec::new(alloc);
    match file.read_to_end(&mut bytes) {
        Ok(_) => Ok(bytes),
        Err(reason) => Err(ServeFault::unread(path, reason)),
    }
}

/// Whether these bytes are the beginning of the first line of a journal.
///
/// # Errors
///
/// There was no memory.
fn begins_journal(alloc: Global, bytes: &[u8]) -> Result<bool, AllocError> {
    let mut line = Vec::new(alloc);
    put_line(&mut line, &NO_SEAL, true, FIRST_BODY)?;
    Ok(line.as_slice().starts_with(bytes))
}

/// Whether a file that ends in this way, and of which no line counts, is another: it has not the beginning of a journal's first line.
///
/// # Errors
///
/// There was no memory.
fn is_foreign(alloc: Global, end: JournalEnd<'_>) -> Result<bool, AllocError> {
    match end {
        JournalEnd::Torn(torn) => Ok(!begins_journal(alloc, torn)?),
        JournalEnd::Whole | JournalEnd::Damaged(_) => Ok(false),
    }
}

/// What the journal with this path says, by all its bytes. Lines that do not count any more are left out, and its end tells of them.
///
/// # Errors
///
/// The file is no journal, a line that counts says no entry, or there was no memory.
pub(super) fn contents_of<'a, 'b>(
    alloc: Global,
    path: &'a str,
    bytes: &'b [u8],
) -> Result<Contents<'b>, ServeFault<'a>>
    ensures entries { IfOk result (λ c. SaysEntries (read_lines no_seal bytes.now) c.entries.items) }
    ensures sound { IfOk result (λ c. IsSound bytes.now c.sound) }
    ensures end { IfOk result (λ c. IsEnd (drop c.sound.bytes bytes.now) c.end) }
{
    let sound = sound_part(bytes);
    let end = end_of(&bytes[sound.bytes..]);
    if sound.lines == 0 && is_foreign(alloc, end)? {
        return Err(ServeFault::damaged(path, JournalDamage::NoJournal));
    }
    match read_entries(alloc, bytes) {
        Ok(entries) => Ok(Contents {
            entries,
            sound,
            end,
        }),
        Err(Unread::NoJournal) => Err(ServeFault::damaged(path, JournalDamage::NoJournal)),
        Err(Unread::NoEntry(at)) => Err(ServeFault::damaged(
            path,
            JournalDamage::NoEntry(line_of(at)),
        )),
        Err(Unread::OutOfMemory) => Err(ServeFault::OutOfMemory),
    }
}

/// The number of the line of this entry, counted from 0: the first line says none.
pub fn line_of(at: usize) -> usize {
    at.saturating_add(2)
}
