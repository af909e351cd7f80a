//! A board's side of its table: the seat, and what the board keeps of the seat's view. It knows no rules of chess. The game is kept
//! separately, so that while a move is being stored the game may be one move ahead of the view.

ghost use Rattle.std.specs.Prelude.{◌≡◌, ◌↔◌, false, true, ℕ, ◌+◌, ◌<◌, ◌≤◌, ◌++◌, ◌∷◌, [], length, Some, None, IfOk, IfErr, IfSome, IsSome, MatchOption};
ghost use mathlib.Core.Option.{some};
ghost use lib.ListN.{get_elem?};
ghost use Rattle.c960_rules.specs.Legal.{Legal};
ghost use Rattle.c960_game.specs.Ending.{named_outcome};
ghost use Rattle.c960_game.specs.Ends.{own_outcome};
ghost use Rattle.c960_game.specs.Ground.{Ground};
ghost use Rattle.c960_game.specs.Positions.{last_position};
ghost use Rattle.live_board.specs.Limits.{AreBoardLimits};
ghost use Rattle.live_board.specs.declared.note.Note.TheVariants.{Open, Vacant};
ghost use Rattle.live_board.specs.declared.words.TheConstants.{MARK};
ghost use Rattle.live_board.specs.Sound.{IsSound, IsSoundPart};
ghost use Rattle.live_board.specs.Views.{finished, followed, kept_part, newcomer, published, starting, storing};
ghost use Rattle.live_board.specs.TableWriter.{Asked, Checked, CheckedBelow, Exchanged, FreeBelow, IsNotedFull, LoadedBelow, MayBeFull, NoneVacant, NoneVacantBelow, Searched, Tried, TriedBelow, Unmoved};
ghost use Rattle.live_board.specs.Meeting.{Met};
ghost use Rattle.live_board.specs.Seats.{NoneBefore};

use crate::cursor::note_after;
use crate::follower::Follower;
use crate::kinds::{Check, Close, Finish, Hand, Look, Publish, Spare, Store};
use crate::note::set_note;
use crate::words::{
    STATUS, closed_cursor, closing_in, cursor_at, header, length_in, move_word_at, open_cursor,
    outcome_in, status, word_count,
};
use crate::{BoardSetup, LiveRule, Note, View};
use atomic_table::{Seat, Table};
use c960_board::{Move, STARTS};
use c960_game::{Ending, MOST_CAPACITY, Outcome};
use std::alloc::{AllocError, Global};
use std::marker::Model;
use std::mem::swap;
use std::sync::Arc;

/// The words of a live board.
pub type LiveTable = Table<(), View, BoardSetup, LiveRule, Global>;

/// To a contract it is its table and the view of its seat.
#[derive(Drop)]
pub struct TableWriter {
    /// The board's words, which its followers hold too.
    pub(crate) table: Arc<LiveTable, Global>,
    /// The board's seat there.
    pub(crate) seat: Seat<(), View>,
    /// The number of its start, and its limits.
    pub(crate) setup: BoardSetup,
    /// The length of the log: the number of moves published.
    pub(crate) len: u64,
    /// What is noted of each slot, indexed by its number.
    pub(crate) notes: Vec<Note>,
    /// No open follower is noted at a place of the log before this one, which is at most the length. So none can be full while the log
    /// is less than a capacity beyond it.
    pub(crate) least_noted: u64,
    /// No slot before this one is noted vacant. So a vacant slot is looked for from here on.
    pub(crate) least_vacant: u64,
}

impl Model for TableWriter {
    ghost use Rattle.std.specs.Arc.{arc_value};
    ghost use Rattle.std.specs.Vec.{vec_capacity};
    ghost use Rattle.live_board.specs.Seats.{BoardSeat, IsTableWriter};

    ghost Value = { BoardSeat };

    ghost view = { λ d. record { table = d.seat.table_id; knows = d.seat.me.0 } };

    ghost invariant = { λ d. IsTableWriter (arc_value d.table).shared.table_id (arc_value d.table).shared.key d.seat d.setup d.len d.least_noted d.least_vacant d.notes.items (vec_capacity d.notes) };
}

impl TableWriter {
    /// The table of a new board, with its words and the board's seat.
    pub fn new(alloc: Global, setup: BoardSetup) -> Result<TableWriter, AllocError>
        requires start { setup.start < STARTS }
        requires limits { AreBoardLimits setup.limits }
        ensures knows { IfOk result (λ d. d.knows ≡ starting setup) }
        ensures sound { IfOk result (λ d. IsSound d.knows) }
    {
        let mut words = Vec::new(alloc);
        words.push(header(setup.start, setup.limits.capacity))?;
        for _ in 0..setup.limits.followers + setup.limits.plies + 1 {
            words.push(0)?;
        }
        let mut notes = Vec::with_capacity(alloc, setup.limits.followers as usize)?;
        for _ in 0..setup.limits.followers {
            notes.push_reserved(Note::Vacant);
        }
        let (table, seat) = Table::of_words(alloc, words.as_slice(), &setup)?;
        let table = Arc::new(alloc, table)?;
        Ok(TableWriter {
            table,
            seat,
            setup,
            len: 0,
            notes,
            least_noted: 0,
            least_vacant: 0,
        })
    }

    /// Stores a legal move, then the new length with the outcome that the game has by itself.
    pub fn publish(&mut self, m: Move, outcome: Option<Outcome>)
        requires going { self.old.knows.outcome ≡ None }
        requires within { length self.old.knows.log < self.old.knows.setup.limits.plies }
        requires legal { Legal (last_position self.old.knows.setup.start self.old.knows.log) m }
        requires outcome { outcome ≡ own_outcome self.old.knows.setup.start (self.old.knows.log ++ m ∷ []) }
        requires free { FreeBelow self.old.knows.setup.limits.followers self.old.knows }
        ensures table { self.new.table ≡ self.old.table }
        ensures knows { self.new.knows ≡ published m (storing m self.old.knows) }
        ensures sound { IsSound self.new.knows }
    {
        let word = move_word_at(self.setup.limits, self.len);
        let status = status(self.len + 1, outcome);
        let code = m.code();
        let shared = &self.table.shared;
        shared.store::<Store>(&mut self.seat, word, code);
        shared.store::<Publish>(&mut self.seat, STATUS, status);
        self.len += 1;
    }

    /// Stores the outcome of an ending.
    pub fn finish(&mut self, ending: &Ending, outcome: Outcome)
        requires going { self.old.knows.outcome ≡ None }
        requires grounded { Ground self.old.knows.setup.start self.old.knows.log ending.now }
        requires outcome { outcome ≡ named_outcome ending.now }
        ensures table { self.new.table ≡ self.old.table }
        ensures knows { self.new.knows ≡ finished (Some (named_outcome ending.now)) self.old.knows }
        ensures sound { IsSound self.new.knows }
    {
        let status = status(self.len, Some(outcome));
        let shared = &self.table.shared;
        shared.store::<Finish>(&mut self.seat, STATUS, status);
    }
}

impl TableWriter {
    /// Loads the cursor of the slot and notes what it says. Returns the new note.
    pub fn check(&mut self, slot: u64) -> Note
        requires { slot < self.old.knows.setup.limits.followers }
        ensures note { get_elem? self.new.knows.notes slot ≡ some result }
        ensures next { (joined next : ℕ) → result ≡ Open joined next → next < MARK }
        ensures table { self.new.table ≡ self.old.table }
        ensures knows { Checked self.old.knows slot self.new.knows }
        ensures before { IsSound self.old.knows }
        ensures sound { IsSound self.new.knows }
    {
        let shared = &self.table.shared;
        let word = shared.load::<Check>(&mut self.seat, cursor_at(slot));
        let note = note_after(self.notes[slot as usize], word);
        set_note(&mut self.notes, &mut self.least_vacant, slot, note);
        note
    }

    /// Closes the follower in the slot if its cursor is still open at `next`, as it was when it was last loaded.
    fn exchange(&mut self, slot: u64, next: u64)
        requires inside { slot < self.old.knows.setup.limits.followers }
        requires full { IsNotedFull self.old.knows slot next }
        ensures table { self.new.table ≡ self.old.table }
        ensures knows { Exchanged self.old.knows slot next self.new.knows }
        ensures sound { IsSound self.new.knows }
    {
        let len = self.len;
        let open = open_cursor(next);
        let closed = closed_cursor(next, len);
        let shared = &self.table.shared;
        let word = shared.compare_exchange::<Close>(&mut self.seat, cursor_at(slot), open, closed);
        let note = if word == open {
            Note::Closed(len)
        } else {
            note_after(self.notes[slot as usize], word)
        };
        set_note(&mut self.notes, &mut self.least_vacant, slot, note);
    }

    /// Whether the follower in the slot may be full, according to its note.
    fn may_be_full(&self, slot: u64) -> bool
        requires { slot < self.now.knows.setup.limits.followers }
        ensures full { (result ≡ true) ↔ MayBeFull self.now.knows slot }
        ensures sound { IsSound self.now.knows }
    {
        let capacity = self.setup.limits.capacity;
        match self.notes[slot as usize] {
            Note::Open { next, .. } => capacity <= self.len && next <= self.len - capacity,
            _ => false,
        }
    }

    /// Loads the cursor of the slot, and closes the follower there if it is full.
    fn ask(&mut self, slot: u64)
        requires { slot < self.old.knows.setup.limits.followers }
        ensures table { self.new.table ≡ self.old.table }
        ensures knows { Asked self.old.knows slot self.new.knows }
        ensures before { IsSound self.old.knows }
        ensures sound { IsSound self.new.knows }
    {
        if let Note::Open { next, .. } = self.check(slot) {
            if next + self.setup.limits.capacity == self.len {
                self.exchange(slot, next);
            }
        }
    }

    /// Closes the follower in the slot if it is full. Its cursor is loaded only if it may be.
    fn close_at(&mut self, slot: u64)
        requires { slot < self.old.knows.setup.limits.followers }
        ensures table { self.new.table ≡ self.old.table }
        ensures knows { Tried self.old.knows slot self.new.knows }
        ensures before { IsSound self.old.knows }
        ensures sound { IsSound self.new.knows }
    {
        if self.may_be_full(slot) {
            self.ask(slot);
        }
    }

    /// The noted place of an open follower there, or else the log's length.
    fn noted_at(&self, slot: u64) -> u64
        requires { slot < self.now.knows.setup.limits.followers }
        ensures open { (joined next : ℕ) → get_elem? self.now.knows.notes slot ≡ some (Open joined next) → result ≡ next }
        ensures unopened { ((joined next : ℕ) → get_elem? self.now.knows.notes slot ≡ some (Open joined next) → ⊥) → result ≡ length self.now.knows.log }
    {
        match self.notes[slot as usize] {
            Note::Open { next, .. } => next,
            _ => self.len,
        }
    }

    /// Closes each full follower, in the order of their slots. Returns a place of the log before which no open follower is then noted.
    fn close_each(&mut self) -> u64
        ensures table { self.new.table ≡ self.old.table }
        ensures knows { TriedBelow self.old.knows.setup.limits.followers self.old.knows self.new.knows }
        ensures free { FreeBelow self.new.knows.setup.limits.followers self.new.knows }
        ensures setup { self.new.knows.setup ≡ self.old.knows.setup }
        ensures log { self.new.knows.log ≡ self.old.knows.log }
        ensures outcome { self.new.knows.outcome ≡ self.old.knows.outcome }
        ensures sound { IsSound self.new.knows }
        ensures least { NoneBefore result self.new.knows.notes }
        ensures low { result ≤ length self.new.knows.log }
    {
        let mut least = self.len;
        for slot in 0..self.setup.limits.followers {
            self.close_at(slot);
            least = least.min(self.noted_at(slot));
        }
        least
    }

    /// Closes each full follower, in the order of their slots. As long as no follower can be full, it looks at no slot.
    #[tactic(auto, using(crate::proofs::lemmas::Tries::tried_none))]
    pub fn close_full(&mut self)
        ensures table { self.new.table ≡ self.old.table }
        ensures knows { TriedBelow self.old.knows.setup.limits.followers self.old.knows self.new.knows }
        ensures free { FreeBelow self.new.knows.setup.limits.followers self.new.knows }
        ensures setup { self.new.knows.setup ≡ self.old.knows.setup }
        ensures log { self.new.knows.log ≡ self.old.knows.log }
        ensures outcome { self.new.knows.outcome ≡ self.old.knows.outcome }
        ensures sound { IsSound self.new.knows }
    {
        if self.can_be_full() {
            self.least_noted = self.close_each();
        }
    }

    /// Whether any follower can be full. If not, each open follower is noted less than a capacity behind.
    fn can_be_full(&self) -> bool
        ensures free { result ≡ false → FreeBelow self.now.knows.setup.limits.followers self.now.knows }
        ensures sound { IsSound self.now.knows }
    {
        self.least_noted + self.setup.limits.capacity <= self.len
    }
}

impl TableWriter {
    /// How many moves a follower's queue holds.
    pub fn capacity(&self) -> u64
        ensures value { result ≡ self.now.knows.setup.limits.capacity }
        ensures most { result ≤ MOST_CAPACITY }
    {
        self.setup.limits.capacity
    }

    /// The word of this number in the table at this moment, or None exactly from the table's end on.
    pub fn word(&self, number: u64) -> Option<u64>
        ensures { IsSome result ↔ (number < self.now.knows.setup.limits.followers + 2 + self.now.knows.setup.limits.plies) }
    {
        if number < word_count(self.setup.limits) {
            Some(self.table.shared.peek(number as usize))
        } else {
            None
        }
    }

    /// The first slot that is noted vacant.
    pub fn vacant(&self) -> Option<u64>
        ensures slot { MatchOption result (NoneVacant self.now.knows) (λ k. (k < self.now.knows.setup.limits.followers) × (get_elem? self.now.knows.notes k ≡ some Vacant)) }
        ensures first { IfSome result (λ k. NoneVacantBelow k self.now.knows) }
        ensures sound { IsSound self.now.knows }
    {
        for slot in self.least_vacant as usize..self.notes.len() {
            if let Note::Vacant = self.notes[slot] {
                return Some(slot as u64);
            }
        }
        None
    }

    /// Lets the next search begin at this slot. None before it is noted vacant.
    pub(crate) fn pass_over(&mut self, slot: u64)
        requires { NoneVacantBelow slot self.old.knows }
        ensures kept { self.new ≡ self.old }
    {
        self.least_vacant = slot;
    }

    /// Loads each cursor once, in the order of their slots, and notes what they say.
    fn check_all(&mut self)
        ensures table { self.new.table ≡ self.old.table }
        ensures knows { CheckedBelow self.old.knows.setup.limits.followers self.old.knows self.new.knows }
        ensures loaded { LoadedBelow self.old.knows.setup.limits.followers self.old.knows self.new.knows }
        ensures kept { Unmoved self.old.knows self.new.knows }
        ensures before { IsSound self.old.knows }
        ensures sound { IsSound self.new.knows }
    {
        for slot in 0..self.setup.limits.followers {
            self.check(slot);
        }
    }

    /// A slot that is noted vacant. It is None only if each cursor was loaded now and none is noted vacant after that.
    pub fn find_vacant(&mut self) -> Option<u64>
        ensures table { self.new.table ≡ self.old.table }
        ensures knows { Searched self.old.knows self.new.knows }
        ensures kept { Unmoved self.old.knows self.new.knows }
        ensures slot { MatchOption result (LoadedBelow self.old.knows.setup.limits.followers self.old.knows self.new.knows × NoneVacant self.new.knows)
            (λ k. (k < self.new.knows.setup.limits.followers) × (get_elem? self.new.knows.notes k ≡ some Vacant)) }
        ensures before { IsSound self.old.knows }
        ensures sound { IsSound self.new.knows }
    {
        if let Some(slot) = self.vacant() {
            self.pass_over(slot);
            return Some(slot);
        }
        self.check_all();
        self.vacant()
    }

    /// Adds a follower in a vacant slot. It takes from the place `from` of the log. It is None if the table has too many
    /// owners, and then nothing has changed.
    pub fn sit(&mut self, slot: u64, from: u64, outcome: Option<Outcome>) -> Option<Follower>
        requires inside { slot < self.old.knows.setup.limits.followers }
        requires vacant { get_elem? self.old.knows.notes slot ≡ some Vacant }
        requires from { (from ≤ length self.old.knows.log) × (length self.old.knows.log ≤ from + self.old.knows.setup.limits.capacity) }
        requires outcome { outcome ≡ self.old.knows.outcome }
        ensures table { self.new.table ≡ self.old.table }
        ensures answer { MatchOption result (self.new ≡ self.old)
            (λ f. (self.new.knows ≡ kept_part (followed slot from self.old.knows)) × (f.table ≡ self.old.table) × (f.part ≡ newcomer slot from self.old.knows)) }
        ensures sound { IsSound self.new.knows }
        ensures sound_part { IfSome result (λ f. IsSoundPart f.part) }
    {
        let Ok(table) = Arc::try_clone(&self.table) else {
            return None;
        };
        let seen = self.len;
        let setup = self.setup;
        self.join_at(slot, from);
        let shared = &self.table.shared;
        let seat = shared.split_seat::<Hand>(&mut self.seat);
        Some(Follower {
            table,
            seat,
            setup,
            slot,
            joined: from,
            taken: 0,
            seen,
            outcome,
            closing: None,
        })
    }

    /// The follower's part joins the board's, sees the status and its cursor, and continues in a seat of its own.
    pub fn meet(&mut self, follower: &mut Follower)
        requires { follower.old.table ≡ self.old.table }
        ensures table { (self.new.table ≡ self.old.table) × (follower.new.table ≡ follower.old.table) }
        ensures met { Met self.old.knows follower.old.part self.new.knows follower.new.part }
        ensures sound { IsSound self.new.knows }
        ensures sound_part { IsSoundPart follower.new.part }
    {
        let slot = follower.slot as usize;
        let word = cursor_at(follower.slot);
        let shared = &self.table.shared;
        let mut seat = shared.split_seat::<Spare>(&mut self.seat);
        swap(&mut seat, &mut follower.seat);
        shared.join_seat::<Hand>(&mut self.seat, seat);
        let status = shared.load::<Look>(&mut self.seat, STATUS);
        let cursor = shared.load::<Check>(&mut self.seat, word);
        let out = shared.split_seat::<Hand>(&mut self.seat);
        follower.seat = out;
        follower.seen = length_in(status);
        follower.outcome = outcome_in(status);
        follower.closing = closing_in(cursor);
        let note = note_after(self.notes[slot], cursor);
        set_note(&mut self.notes, &mut self.least_vacant, follower.slot, note);
    }
}
