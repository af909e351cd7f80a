//! A hall of the entries of a journal, and whoever goes on with that journal.

ghost use Rattle.std.specs.Prelude.{◌∷◌, ℕ, List, length, IfOk, IsErrOf};
ghost use Rattle.chained_lines.specs.Lines.{Line};
ghost use Rattle.relay_hall.specs.Record.{nobody_yet};
ghost use Rattle.relay_hall.specs.Restart.{IsRestart};
ghost use Rattle.relay_journal.specs.Bodies.{SaysEntries};
ghost use Rattle.relay_journal.specs.Restarting.{IsRefusedAt, IsRestarted};
ghost use Rattle.relay_journal.specs.Writing.{HoldsIfKnown, IsWritten};
ghost use Rattle.relay_journal.specs.declared.unfit.Unfit.TheVariants.{Refused};

use crate::entry::Entry;
use crate::saying::{go_all, say_all};
use crate::scribe::Scribe;
use crate::unfit::Unfit;
use c960_game::Limits;
use chained_lines::{Journal, StableStorage};
use relay_hall::Hall;
use std::alloc::Global;

/// A hall with the boards that these entries lead to, at this time, in which every operator was lost: boards of a key wait for the whole
/// grace, and games that nobody can come back to are ended as abandoned. The connections that come afterwards have numbers from the number
/// of entries on. And whoever goes on with the journal that has these entries behind its first line: what has ended is noted in it, and
/// not committed yet.
///
/// # Errors
///
/// An entry was refused, or there was no memory, or an owner's key that no line tells.
pub fn recover<S: StableStorage + Drop>(
    alloc: Global,
    limits: Limits,
    grace: u64,
    now: u64,
    entries: &[Entry],
    journal: Journal<S>,
) -> Result<(Hall, Scribe<S>), Unfit>
    ensures restarted { IfOk result (λ r. IsRestarted limits grace now entries.now r.0) }
    ensures restart { IfOk result (λ r. IsRestart limits grace (length entries.now) r.0) }
    ensures written { IfOk result (λ r. (first : Line) (ls : List Line) → SaysEntries (first ∷ ls) entries.now
        → HoldsIfKnown S.contents S.synced journal (first ∷ ls) → IsWritten S.contents S.synced r.1 r.0.floor) }
    ensures refused { (at : ℕ) → IsErrOf result (Refused at) → IsRefusedAt (nobody_yet limits grace) entries.now at }
{
    let mut hall = Hall::new(alloc, limits, grace)?;
    say_all(&mut hall, entries)?;
    let mut scribe = Scribe::behind(alloc, journal, &hall)?;
    hall.tick(now);
    scribe.note(alloc, &hall)?;
    go_all(alloc, &mut hall, &mut scribe, entries)?;
    Ok((hall, scribe))
}
