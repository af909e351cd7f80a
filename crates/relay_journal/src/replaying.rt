//! The boards that entries lead to, before a restart makes anything of them.

ghost use Rattle.std.specs.Prelude.{◌≡◌, [], ℕ, IfOk, IsErrOf};
ghost use Rattle.relay_hall.specs.Record.{nobody_yet};
ghost use Rattle.relay_journal.specs.Kept.{kept_of, replayed};
ghost use Rattle.relay_journal.specs.Restarting.{IsRefusedAt};
ghost use Rattle.relay_journal.specs.declared.unfit.Unfit.TheVariants.{Refused};

use crate::entry::Entry;
use crate::laws::what_is_said_again_leads_to_the_boards;
use crate::saying::say_all;
use crate::unfit::Unfit;
use c960_game::Limits;
use relay_hall::Hall;
use std::alloc::Global;

/// A hall with the boards that these entries lead to, to be looked at: those who have opened them are still there, so games go on that no
/// entry has ended.
///
/// # Errors
///
/// An entry was refused, or there was no memory.
pub fn replay(alloc: Global, limits: Limits, entries: &[Entry]) -> Result<Hall, Unfit>
    ensures boards { IfOk result (λ hall. kept_of hall.floor ≡ replayed [] entries.now) }
    ensures refused { (at : ℕ) → IsErrOf result (Refused at) → IsRefusedAt (nobody_yet limits 0) entries.now at }
{
    let mut hall = Hall::new(alloc, limits, 0)?;
    say_all(&mut hall, entries)?;
    what_is_said_again_leads_to_the_boards();
    Ok(hall)
}
