//! What a board does at its own seat for a follower whose part it carries there. No seat is handed out, so that one thread makes the steps
//! of the board and of all its followers.

ghost use Rattle.std.specs.Prelude.{◌≡◌, ℕ, ◌+◌, ◌<◌, ◌≤◌, true, length, Some};
ghost use mathlib.Core.Option.{some};
ghost use lib.ListN.{get_elem?};
ghost use Rattle.live_board.specs.SharedBoard.{move_at};
ghost use Rattle.live_board.specs.declared.note.Note.TheVariants.{Vacant};
ghost use Rattle.live_board.specs.declared.view.Part.{Part};
ghost use Rattle.live_board.specs.Sound.{IsSound};
ghost use Rattle.live_board.specs.Views.{each_part, finds, followed, gains, left_at, next_of, only_at, sees};
ghost use Rattle.live_board.specs.Words.{length_in, move_word_at, outcome_in};
ghost use Rattle.live_board.specs.Carried.{Carries, closing_at};

use crate::Note;
use crate::kinds::{Follow, Leave, Look, Read, Take};
use crate::note::set_note;
use crate::table_writer::TableWriter;
use crate::words::{STATUS, cursor_at, move_word_at, open_cursor};
use c960_board::Move;

impl TableWriter {
    /// The closing of the follower in the slot.
    pub(crate) fn closing_at(&self, slot: u64) -> Option<u64>
        requires { Carries self.now.knows slot }
        ensures closing { result ≡ closing_at self.now.knows slot }
        ensures sound { IsSound self.now.knows }
        ensures owns { self.now.knows.owns ≡ true }
    {
        match self.notes[slot as usize] {
            Note::Closed(closing) => Some(closing),
            _ => None,
        }
    }

    /// Adds a follower in a vacant slot. It takes from the place `from` of the log. Its part stays here.
    pub(crate) fn join_at(&mut self, slot: u64, from: u64)
        requires inside { slot < self.old.knows.setup.limits.followers }
        requires vacant { get_elem? self.old.knows.notes slot ≡ some Vacant }
        requires from { (from ≤ length self.old.knows.log) × (length self.old.knows.log ≤ from + self.old.knows.setup.limits.capacity) }
        ensures table { self.new.table ≡ self.old.table }
        ensures knows { self.new.knows ≡ followed slot from self.old.knows }
        ensures sound { IsSound self.new.knows }
    {
        let shared = &self.table.shared;
        let cursor = open_cursor(from);
        shared.store::<Follow>(&mut self.seat, cursor_at(slot), cursor);
        let note = Note::Open {
            joined: from,
            next: from,
        };
        set_note(&mut self.notes, &mut self.least_vacant, slot, note);
        self.least_noted = self.least_noted.min(from);
    }

    /// Loads the status.
    pub(crate) fn look(&mut self)
        ensures table { self.new.table ≡ self.old.table }
        ensures knows { (status : ℕ) × (self.new.knows ≡ each_part (sees status) self.old.knows) × (length_in status ≡ length self.old.knows.log) × (outcome_in status ≡ self.old.knows.outcome) }
        ensures sound { IsSound self.new.knows }
    {
        let shared = &self.table.shared;
        let _status = shared.load::<Look>(&mut self.seat, STATUS);
    }

    /// Takes the move at the place `next` of the log for the follower in the slot. Its part has seen a length beyond `next`.
    pub(crate) fn gain_at(&mut self, slot: u64, next: u64) -> Move
        requires part { (i : ℕ) × (p : Part) × (get_elem? self.old.knows.parts i ≡ some p) × (p.slot ≡ slot) × (next_of p ≡ next)
            × (next_of p < p.seen) × ((c : ℕ) → p.closing ≡ Some c → next_of p < c) }
        requires within { next < length self.old.knows.log }
        ensures table { self.new.table ≡ self.old.table }
        ensures move_is { result ≡ move_at self.old.knows.log next }
        ensures knows { (cursor : ℕ) × (self.new.knows ≡ each_part (only_at (slot + 2) (gains cursor)) (each_part (finds (move_word_at self.old.knows.setup.limits next) result) self.old.knows)) }
        ensures sound { IsSound self.new.knows }
    {
        let word = move_word_at(self.setup.limits, next);
        let shared = &self.table.shared;
        let code = shared.load::<Read>(&mut self.seat, word);
        let Some(m) = Move::of_code(code) else {
            unreachable!();
        };
        let _cursor = shared.fetch_add::<Take>(&mut self.seat, cursor_at(slot), 1);
        m
    }

    /// Removes the follower in the slot, which is then noted vacant.
    pub(crate) fn leave_at(&mut self, slot: u64)
        requires { Carries self.old.knows slot }
        ensures table { self.new.table ≡ self.old.table }
        ensures knows { (cursor : ℕ) × (self.new.knows ≡ left_at (slot + 2) cursor self.old.knows) }
        ensures sound { IsSound self.new.knows }
    {
        let shared = &self.table.shared;
        let _cursor = shared.swap::<Leave>(&mut self.seat, cursor_at(slot), 0);
        set_note(&mut self.notes, &mut self.least_vacant, slot, Note::Vacant);
    }
}
