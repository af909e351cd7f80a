//! Entries are said again to a hall, and then all who said them go.

ghost use Rattle.std.specs.Prelude.{◌≡◌, ◌≢◌, ℕ, [], true, OnOk, IsErrOf};
ghost use Rattle.c960_game.specs.declared.refusal.Refusal.{Refusal as Ground};
ghost use Rattle.c960_game.specs.declared.refusal.Refusal.TheVariants.{OutOfMemory as NoMemory};
ghost use Rattle.relay_core.specs.declared.reply.Reply.TheVariants.{Refused as RefusedBy};
ghost use Rattle.relay_core.specs.History.{History, is_accepted};
ghost use Rattle.relay_journal.specs.Restarting.{IsRefusedAt, IsRefusedBy, Leads, comes, goes, gone_from, said_again, said_from};
ghost use Rattle.relay_journal.specs.Writing.{IsWritten};
ghost use Rattle.relay_journal.specs.declared.unfit.Unfit.TheVariants.{Refused as RefusedAt};
ghost use Rattle.relay_journal.specs.declared.saying.Unsaid.TheVariants.{OutOfMemory, Refused};

use crate::entry::Entry;
use crate::scribe::Scribe;
use crate::unfit::Unfit;
use c960_game::Refusal;
use chained_lines::{NoteError, StableStorage};
use relay_core::Reply;
use relay_hall::{Hall, Key, Owner};
use std::alloc::{AllocError, Global};

/// Why an entry was not made again.
#[derive(Clone, Copy)]
enum Unsaid {
    /// The hall refused it.
    Refused,
    /// There was no memory.
    OutOfMemory,
}

impl From<AllocError> for Unsaid {
    ghost from_gives = { λ _ error. error ≡ OutOfMemory };

    fn from(_: AllocError) -> Unsaid {
        Unsaid::OutOfMemory
    }
}

/// Tells a refusal, and one for want of memory, from any other reply.
fn accepted(reply: &Reply) -> Result<(), Unsaid>
    ensures ok { OnOk result (is_accepted reply.now ≡ true) }
    ensures refused { IsErrOf result Refused → (refusal : Ground) × (reply.now ≡ RefusedBy refusal) × (refusal ≢ NoMemory) }
{
    match reply {
        Reply::Refused(Refusal::OutOfMemory) => Err(Unsaid::OutOfMemory),
        Reply::Refused(_) => Err(Unsaid::Refused),
        _ => Ok(()),
    }
}

/// A connection comes, if it has a key; one without is in no record.
///
/// # Errors
///
/// There was no memory.
fn come(hall: &mut Hall, key: &Option<Key>) -> Result<(), AllocError>
    ensures { OnOk result ((h : History) → Leads hall.old h (comes key.now) hall.new) }
{
    match key {
        None => Ok(()),
        Some(key) => {
            hall.arrive(key)?;
            Ok(())
        }
    }
}

/// A connection of this number, with the key of an open, says an entry again.
fn say_again(hall: &mut Hall, who: u64, entry: &Entry) -> Result<(), Unsaid>
    ensures said { OnOk result ((h : History) → Leads hall.old h (said_again who entry.now) hall.new) }
    ensures refused { IsErrOf result Refused → IsRefusedBy hall.old who entry.now }
{
    let speaker = Owner {
        key: entry.key(),
        opener: who,
    };
    come(hall, &speaker.key)?;
    let (reply, _) = hall.step(&speaker, &entry.step());
    accepted(&reply)
}

/// All entries are said again, each by a connection of its own.
///
/// # Errors
///
/// The hall refused one, or there was no memory.
pub(crate) fn say_all(hall: &mut Hall, entries: &[Entry]) -> Result<(), Unfit>
    ensures said { OnOk result (Leads hall.old [] (said_from 0 entries.now) hall.new) }
    ensures refused { (at : ℕ) → IsErrOf result (RefusedAt at) → IsRefusedAt hall.old entries.now at }
{
    for at in 0..entries.len() {
        match say_again(hall, at as u64, &entries[at]) {
            Ok(()) => {}
            Err(Unsaid::Refused) => return Err(Unfit::Refused(at)),
            Err(Unsaid::OutOfMemory) => return Err(Unfit::OutOfMemory),
        }
    }
    Ok(())
}

/// The connection of this number that said an entry goes, if it opened a board, and what that ends is noted.
///
/// # Errors
///
/// The scribe failed.
fn go<S: StableStorage>(
    alloc: Global,
    hall: &mut Hall,
    scribe: &mut Scribe<S>,
    who: u64,
    entry: &Entry,
) -> Result<(), NoteError>
    ensures goes { (h : History) → Leads hall.old h (goes who entry.now) hall.new }
    ensures written { IsWritten S.contents S.synced scribe.old hall.old.floor
        → OnOk result (IsWritten S.contents S.synced scribe.new hall.new.floor) }
{
    match *entry {
        Entry::Opens(_, _, key) => {
            hall.leave(&Owner { key, opener: who });
            scribe.note(alloc, hall)
        }
        Entry::Plays(..) => Ok(()),
        Entry::Ends(..) => Ok(()),
    }
}

/// All of them go.
///
/// # Errors
///
/// The scribe failed.
pub(crate) fn go_all<S: StableStorage>(
    alloc: Global,
    hall: &mut Hall,
    scribe: &mut Scribe<S>,
    entries: &[Entry],
) -> Result<(), NoteError>
    ensures gone { OnOk result ((h : History) → Leads hall.old h (gone_from 0 entries.now) hall.new) }
    ensures written { IsWritten S.contents S.synced scribe.old hall.old.floor
        → OnOk result (IsWritten S.contents S.synced scribe.new hall.new.floor) }
{
    for at in 0..entries.len() {
        go(alloc, hall, scribe, at as u64, &entries[at])?;
    }
    Ok(())
}
