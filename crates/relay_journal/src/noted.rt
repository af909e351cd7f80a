//! What was noted of boards.

ghost use Rattle.std.specs.Prelude.{◌≡◌, ◌==◌, ◌&&◌, length, slice_get, OnOk};
ghost use Rattle.relay_journal.specs.Behind.{kept_shown};
ghost use Rattle.relay_journal.specs.Scribes.{noted_in, noted_of};

use relay_hall::{Hall, Shown};
use std::alloc::AllocError;

/// What was noted of a board behind its open.
#[derive(Clone, Copy)]
pub(crate) struct Noted {
    /// How many moves.
    pub(crate) plies: u16,
    /// Whether the end of its game.
    pub(crate) is_over: bool,
}

impl Noted {
    /// What is noted of a board of which nothing is missing.
    fn all_of(shown: &Shown<'_>) -> Noted
        ensures { result ≡ noted_of (kept_shown shown.now).1 }
    {
        Noted {
            plies: shown.plies(),
            is_over: shown.outcome().is_some(),
        }
    }

    /// Whether the end of this board's game was noted, and no move is missing.
    pub(crate) fn has_end_of(&self, shown: &Shown<'_>) -> bool
        ensures { result ≡ (self.now.is_over && (self.now.plies == length shown.now.game.log)) }
    {
        self.is_over && self.plies == shown.plies()
    }
}

/// What was noted of the board of this index, or None if nothing was.
pub(crate) fn noted_at(noted: &[Noted], at: usize) -> Option<Noted>
    ensures { result ≡ slice_get noted.now at }
{
    noted.get(at).copied()
}

/// Keeps that nothing is missing of the boards of this hall.
///
/// # Errors
///
/// There was no memory. What was kept before is lost.
pub(crate) fn keep_noted(noted: &mut Vec<Noted>, hall: &Hall) -> Result<(), AllocError>
    ensures { OnOk result (noted.new.items ≡ noted_in hall.now.floor) }
{
    noted.clear();
    for at in 0..hall.len() {
        let Some(shown) = hall.board(at) else {
            unreachable!();
        };
        noted.push(Noted::all_of(&shown))?;
    }
    Ok(())
}
