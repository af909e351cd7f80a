//! What a board knows of its cursors.

ghost use Rattle.std.specs.Prelude.{◌≡◌, ◌<◌, set, vec_capacity, vec_len};
ghost use Rattle.c960_game.specs.declared.limits.TheConstants.{MOST_FOLLOWERS};
ghost use Rattle.live_board.specs.Seats.{NoneVacantBefore, least_vacant_with};

/// What the board notes of a slot.
#[derive(Clone, Copy, PartialEq, Eq, Debug)]
pub enum Note {
    /// Nobody follows there.
    Vacant,
    /// A follower that has not been closed, or nobody if it has since left.
    Open {
        /// The place of the log at which it joined.
        joined: u64,
        /// It next takes the move at this place of the log or at a later one.
        next: u64,
    },
    /// A follower that was closed at this length, or nobody if it has since left.
    Closed(u64),
}

/// Notes this of a slot. The slot before which none is noted vacant moves with it. A board's notes are set here and nowhere else.
pub(crate) fn set_note(notes: &mut Vec<Note>, least_vacant: &mut u64, slot: u64, note: Note)
    requires inside { slot < vec_len notes.old }
    requires few { slot < MOST_FOLLOWERS }
    ensures items { notes.new.items ≡ set notes.old.items slot note }
    ensures room { vec_capacity notes.new ≡ vec_capacity notes.old }
    ensures vacant { NoneVacantBefore least_vacant.old notes.old.items → NoneVacantBefore least_vacant.new notes.new.items }
{
    notes[slot as usize] = note;
    *least_vacant = least_vacant_with(*least_vacant, slot, note);
}

/// The slot before which none is noted vacant once this is noted of a slot. Until then none was before `least`.
fn least_vacant_with(least: u64, slot: u64, note: Note) -> u64
    requires { slot < MOST_FOLLOWERS }
    ensures { result ≡ least_vacant_with least slot note }
{
    match note {
        Note::Vacant => least.min(slot),
        _ if slot == least => least + 1,
        _ => least,
    }
}
