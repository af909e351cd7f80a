//! A live board: a game, and its log on a table that its followers read.

ghost use Rattle.std.specs.Prelude.{◌≡◌, ◌↔◌, ℕ, ◌+◌, ◌<◌, ◌≤◌, ◌⊎◌, true, [], ◌∷◌, ◌++◌, length, slice_get, Some, None, Err, IfOk, IfErr, IfSome, IsSome, OnErr, OnOk, MatchOption};
ghost use mathlib.Core.Option.{some};
ghost use lib.ListN.{get_elem?};
ghost use Rattle.c960_game.specs.Ending.{named_outcome};
ghost use Rattle.c960_game.specs.Ends.{own_outcome};
ghost use Rattle.c960_game.specs.Positions.{last_position, position_at};
ghost use Rattle.c960_game.specs.Record.{end_answer, play_answer};
ghost use Rattle.relay_core.specs.BoardAnswers.{with_place};
ghost use Rattle.relay_core.specs.Replies.{taken_of};
ghost use Rattle.live_board.specs.Sound.{IsSound, IsSoundPart};
ghost use Rattle.live_board.specs.declared.note.Note.TheVariants.{Vacant};
ghost use Rattle.live_board.specs.Views.{each_part, finished, followed, left_at, newcomer, sees, starting};
ghost use Rattle.live_board.specs.Accounts.{account_of};
ghost use Rattle.live_board.specs.Carried.{Carries, CarriesAt, closing_at, due_at, TookAt};
ghost use Rattle.live_board.specs.Board.{from_place, game_of, IsLegalGame, IsNotYet, IsTooFarBack, setup_of};
ghost use Rattle.live_board.specs.TableWriter.{Joined, LoadedBelow, NoneVacant, NoneVacantBelow, Searched, Submitted};
ghost use Rattle.live_board.specs.Meeting.{Met};
ghost use Rattle.live_board.specs.Order.{SubmittedInOrder};

use crate::follower::Follower;
use crate::table_writer::TableWriter;
use crate::{BoardLimits, BoardSetup};
use c960_board::{Move, Position, STARTS};
use c960_game::{Ending, Game, Limits, Outcome, Refusal, Replaying};
use relay_core::{Account, Taken, may_join_at, without_move};
use std::alloc::Global;
use std::marker::Model;

/// A game that one thread plays while its followers take the moves. To a contract it is its table and what its seat there knows.
#[derive(Drop)]
pub struct Board {
    /// The board's side of its table.
    writer: TableWriter,
    /// The game that the table shows.
    game: Game,
}

impl Model for Board {
    ghost use Rattle.live_board.specs.Seats.{BoardSeat};
    ghost use Rattle.live_board.specs.Board.{IsBoard};

    ghost Value = { BoardSeat };

    ghost view = { λ b. b.writer };

    ghost invariant = { λ b. IsBoard b.writer b.game };
}

impl Board {
    /// A board with the game of a numbered start. All memory of the board is reserved here. `follow` allocates nothing, although its
    /// contract allows `OutOfMemory`: it answers that only if the table has as many owners as can be counted.
    /// Refused: `BadStart` exactly from 960 on, and `OutOfMemory`.
    pub fn open(alloc: Global, start: u16, limits: Limits) -> Result<Board, Refusal>
        ensures bad_start { (result ≡ Err Refusal.BadStart) ↔ (STARTS ≤ start) }
        ensures refusals { IfErr result (λ r. (r ≡ Refusal.BadStart) ⊎ (r ≡ Refusal.OutOfMemory)) }
        ensures knows { IfOk result (λ b. b.knows ≡ starting (setup_of start limits)) }
        ensures valid { IfOk result (λ b. IsLegalGame b.knows) }
        ensures sound { IfOk result (λ b. IsSound b.knows) }
    {
        let game = Game::open(alloc, start, limits.plies())?;
        let setup = BoardSetup {
            start: u64::from(start),
            limits: BoardLimits::of(&limits),
        };
        let Ok(writer) = TableWriter::new(alloc, setup) else {
            return Err(Refusal::OutOfMemory);
        };
        Ok(Board { writer, game })
    }

    /// The number of the start, 0 to 959.
    pub fn start(&self) -> u16
        ensures value { result ≡ self.now.knows.setup.start }
        ensures valid { IsLegalGame self.now.knows }
    {
        self.game.start()
    }

    /// How many moves were made.
    pub fn len(&self) -> u16
        ensures value { result ≡ length self.now.knows.log }
        ensures valid { IsLegalGame self.now.knows }
    {
        self.game.len()
    }

    /// How many moves the queue of a follower holds.
    pub fn capacity(&self) -> u16
        ensures value { result ≡ self.now.knows.setup.limits.capacity }
        ensures valid { IsLegalGame self.now.knows }
    {
        self.writer.capacity() as u16
    }

    /// The move at a place of the log, counted from 0, or None exactly from the log's length on.
    pub fn move_at(&self, place: u16) -> Option<Move>
        ensures value { result ≡ slice_get self.now.knows.log place }
        ensures valid { IsLegalGame self.now.knows }
    {
        self.game.move_at(place)
    }

    /// The present position.
    pub fn position(&self) -> Position
        ensures value { result ≡ last_position self.now.knows.setup.start self.now.knows.log }
        ensures valid { IsLegalGame self.now.knows }
    {
        self.game.position()
    }

    /// The position after that many moves, or None exactly if fewer were made.
    pub fn position_at(&self, place: u16) -> Option<Position>
        ensures value { result ≡ position_at self.now.knows.setup.start self.now.knows.log place }
        ensures valid { IsLegalGame self.now.knows }
    {
        self.game.position_at(place)
    }

    /// The position after that many moves, to be worked out without the board, or None exactly if fewer were made.
    pub fn replay_at(&self, place: u16) -> Option<Replaying>
        ensures value { result ≡ position_at self.now.knows.setup.start self.now.knows.log place }
        ensures valid { IsLegalGame self.now.knows }
    {
        self.game.replay_at(place)
    }

    /// The outcome, once the game is over.
    pub fn outcome(&self) -> Option<Outcome>
        ensures value { result ≡ self.now.knows.outcome }
        ensures valid { IsLegalGame self.now.knows }
    {
        self.game.outcome()
    }

    /// The word of this number of the table at this moment; docs/LIVE.md says what the words mean. It is None exactly from the table's
    /// end on: the table has the header, the status, a word for each follower and one for each ply. This is for observers: no other call
    /// uses it, and the answer says nothing about what the board's seat knows.
    pub fn word(&self, number: u64) -> Option<u64>
        ensures { IsSome result ↔ (number < self.now.knows.setup.limits.followers + 2 + self.now.knows.setup.limits.plies) }
    {
        self.writer.word(number)
    }

    /// Makes a move. Returns its place in the log, and the outcome if it ends the game. Refused as by `Game::play`, and then nothing has
    /// changed. Each follower that is open and a capacity behind is closed first, in the order of their slots. Then the move is stored,
    /// and then the status.
    pub fn submit(&mut self, m: Move) -> Result<(u16, Option<Outcome>), Refusal>
        ensures answer { result ≡ with_place (length self.old.knows.log) (play_answer (game_of self.old.knows) m) }
        ensures refused { OnErr result (self.new ≡ self.old) }
        ensures table { self.new.table ≡ self.old.table }
        ensures knows { OnOk result (Submitted m self.old.knows self.new.knows) }
        ensures order { OnOk result (SubmittedInOrder self.old.knows self.new.knows) }
        ensures log { OnOk result (self.new.knows.log ≡ self.old.knows.log ++ m ∷ []) }
        ensures outcome { OnOk result (self.new.knows.outcome ≡ own_outcome self.old.knows.setup.start (self.old.knows.log ++ m ∷ [])) }
        ensures valid { IsLegalGame self.new.knows }
        ensures sound { IsSound self.new.knows }
    {
        let place = self.game.len();
        let outcome = self.game.play(m)?;
        self.writer.close_full();
        self.writer.publish(m, outcome);
        Ok((place, outcome))
    }

    /// Ends the game. Refused as by `Game::end`, and then nothing has changed.
    pub fn end(&mut self, ending: Ending) -> Result<Outcome, Refusal>
        ensures answer { result ≡ end_answer (game_of self.old.knows) ending }
        ensures refused { OnErr result (self.new ≡ self.old) }
        ensures table { self.new.table ≡ self.old.table }
        ensures knows { OnOk result (self.new.knows ≡ finished (Some (named_outcome ending)) self.old.knows) }
        ensures valid { IsLegalGame self.new.knows }
        ensures sound { IsSound self.new.knows }
    {
        let outcome = self.game.end(ending)?;
        self.writer.finish(&ending, outcome);
        Ok(outcome)
    }

    /// A follower that takes from the place `from` of the log, or else from the log's present length. Refused, in this order: `NotYet`
    /// if the log has not reached the place; `TooFarBack` if the log goes more than a capacity beyond it; `TooManyFollowers`
    /// only if each cursor was loaded in this call and none is noted vacant; `OutOfMemory` only if one is. A refused call makes
    /// no steps except loads of cursors.
    pub fn follow(&mut self, from: Option<u16>) -> Result<Follower, Refusal>
        ensures table { self.new.table ≡ self.old.table }
        ensures not_yet { (result ≡ Err Refusal.NotYet) ↔ IsNotYet self.old.knows (from_place self.old.knows from) }
        ensures too_far_back { (result ≡ Err Refusal.TooFarBack) ↔ IsTooFarBack self.old.knows (from_place self.old.knows from) }
        ensures refusals { IfErr result (λ r. (r ≡ Refusal.NotYet) ⊎ (r ≡ Refusal.TooFarBack) ⊎ (r ≡ Refusal.TooManyFollowers) ⊎ (r ≡ Refusal.OutOfMemory)) }
        ensures too_many { (result ≡ Err Refusal.TooManyFollowers) → LoadedBelow self.old.knows.setup.limits.followers self.old.knows self.new.knows × NoneVacant self.new.knows }
        ensures memory { (result ≡ Err Refusal.OutOfMemory) → (k : ℕ) × (get_elem? self.new.knows.notes k ≡ some Vacant) }
        ensures refused { OnErr result (Searched self.old.knows self.new.knows) }
        ensures follower { IfOk result (λ f. (f.table ≡ self.old.table) × (f.part ≡ newcomer f.part.slot (from_place self.old.knows from) self.old.knows)) }
        ensures knows { IfOk result (λ f. Joined f.part.slot (from_place self.old.knows from) self.old.knows self.new.knows) }
        ensures log { self.new.knows.log ≡ self.old.knows.log }
        ensures outcome { self.new.knows.outcome ≡ self.old.knows.outcome }
        ensures closings { self.new.knows.closings ≡ self.old.knows.closings }
        ensures valid { IsLegalGame self.new.knows }
        ensures sound { IsSound self.new.knows }
        ensures sound_part { IfOk result (λ f. IsSoundPart f.part) }
    {
        let len = self.game.len();
        let place = from.unwrap_or(len);
        may_join_at(len, place, self.writer.capacity() as u16)?;
        let outcome = self.game.outcome();
        let Some(cursor) = self.writer.find_vacant() else {
            return Err(Refusal::TooManyFollowers);
        };
        self.writer
            .sit(cursor, u64::from(place), outcome)
            .ok_or(Refusal::OutOfMemory)
    }
}

/// For a keeper that holds all followers of a board at the board's own seat, so that one thread makes the steps of the board and of all
/// of them. Here a follower is known by its slot, and no seat is handed out.
impl Board {
    /// The first slot that is noted vacant.
    pub fn vacant_slot(&self) -> Option<u64>
        ensures slot { MatchOption result (NoneVacant self.now.knows) (λ k. (k < self.now.knows.setup.limits.followers) × (get_elem? self.now.knows.notes k ≡ some Vacant)) }
        ensures first { IfSome result (λ k. NoneVacantBelow k self.now.knows) }
        ensures valid { IsLegalGame self.now.knows }
    {
        self.writer.vacant()
    }

    /// Adds a follower in a vacant slot. It takes from the place `from` of the log.
    fn join_at(&mut self, slot: u64, from: u16)
        requires inside { slot < self.old.knows.setup.limits.followers }
        requires vacant { get_elem? self.old.knows.notes slot ≡ some Vacant }
        requires from { (from ≤ length self.old.knows.log) × (length self.old.knows.log ≤ from + self.old.knows.setup.limits.capacity) }
        ensures table { self.new.table ≡ self.old.table }
        ensures knows { self.new.knows ≡ followed slot from self.old.knows }
        ensures valid { IsLegalGame self.new.knows }
        ensures sound { IsSound self.new.knows }
    {
        self.writer.join_at(slot, u64::from(from));
    }

    /// Adds a follower in the first vacant slot. It takes from the place `from` of the log. The next search for a vacant slot then passes
    /// over all slots up to this one. It allocates nothing.
    pub fn join_first(&mut self, slot: u64, from: u16)
        requires inside { slot < self.old.knows.setup.limits.followers }
        requires vacant { get_elem? self.old.knows.notes slot ≡ some Vacant }
        requires first { NoneVacantBelow slot self.old.knows }
        requires from { (from ≤ length self.old.knows.log) × (length self.old.knows.log ≤ from + self.old.knows.setup.limits.capacity) }
        ensures table { self.new.table ≡ self.old.table }
        ensures knows { self.new.knows ≡ followed slot from self.old.knows }
        ensures valid { IsLegalGame self.new.knows }
        ensures sound { IsSound self.new.knows }
    {
        self.writer.pass_over(slot);
        self.join_at(slot, from);
    }

    /// Takes for the follower in the slot, whose next move is the one at the place `next` of the log. It allocates nothing.
    pub fn take_at(&mut self, slot: u64, next: u16) -> Taken
        requires { CarriesAt self.old.knows slot next }
        ensures answer { result ≡ taken_of next self.old.knows.outcome (closing_at self.old.knows slot) (due_at self.old.knows slot next) }
        ensures table { self.new.table ≡ self.old.table }
        ensures knows { TookAt slot result self.old.knows self.new.knows }
        ensures valid { IsLegalGame self.new.knows }
        ensures sound { IsSound self.new.knows }
    {
        let closing = self.writer.closing_at(slot);
        let place = u64::from(next);
        let len = u64::from(self.game.len());
        let answer = without_move(closing, place, len, self.game.outcome());
        if is_cut(&answer) {
            return Taken::Cut;
        }
        self.writer.look();
        match answer {
            Some(answer) => answer,
            None => Taken::Move(next, self.writer.gain_at(slot, place)),
        }
    }

    /// Removes the follower in the slot, which is then noted vacant. Returns the length at which it was closed, if it was. It
    /// allocates nothing.
    pub fn leave_at(&mut self, slot: u64) -> Option<u64>
        requires { Carries self.old.knows slot }
        ensures closing { result ≡ closing_at self.old.knows slot }
        ensures table { self.new.table ≡ self.old.table }
        ensures knows { (status cursor : ℕ) × (self.new.knows ≡ left_at (slot + 2) cursor (each_part (sees status) self.old.knows)) }
        ensures valid { IsLegalGame self.new.knows }
        ensures sound { IsSound self.new.knows }
    {
        let closing = self.writer.closing_at(slot);
        self.writer.look();
        self.writer.leave_at(slot);
        closing
    }
}

/// Whether a take is answered `Cut`.
fn is_cut(answer: &Option<Taken>) -> bool
    ensures { (result ≡ true) ↔ (answer.now ≡ Some Taken.Cut) }
{
    matches!(answer, Some(Taken::Cut))
}

/// The board and one of its followers compare what they know. The follower sees the board's length and outcome, and its closing if it
/// was closed. The account is the one that it would get if it left now.
pub fn meet(board: &mut Board, follower: &mut Follower) -> Account
    requires { follower.old.table ≡ board.old.table }
    ensures table { (board.new.table ≡ board.old.table) × (follower.new.table ≡ follower.old.table) }
    ensures met { Met board.old.knows follower.old.part board.new.knows follower.new.part }
    ensures account { result ≡ account_of follower.new.part }
    ensures valid { IsLegalGame board.new.knows }
    ensures sound { IsSound board.new.knows }
    ensures sound_part { IsSoundPart follower.new.part }
{
    board.writer.meet(follower);
    follower.account()
}
