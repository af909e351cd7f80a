//! A follower, which takes a board's moves.

ghost use Rattle.std.specs.Prelude.{◌≡◌, ◌≢◌, ℕ, ◌+◌, ◌<◌, ◌≤◌, [], ◌∷◌, length, Some, None, unwrap_or, is_some};
ghost use Rattle.live_board.specs.declared.view.Part.{Part};
ghost use Rattle.live_board.specs.Sound.{IsSoundPart};
ghost use Rattle.live_board.specs.Views.{gains, holding, learns, next_of, sees};
ghost use Rattle.live_board.specs.Words.{closing_in, length_in, outcome_in};
ghost use Rattle.live_board.specs.Accounts.{account_of};
ghost use Rattle.live_board.specs.Takes.{HasSeenNoLess, Stays, StaysKnown, Took, TookOfGame};

use crate::gone::Gone;
use crate::kinds::{Leave, Look, Read, Take};
use crate::table_writer::LiveTable;
use crate::words::{STATUS, closing_in, cursor_at, length_in, move_word_at, outcome_in};
use crate::{BoardSetup, View};
use atomic_table::Seat;
use c960_board::Move;
use c960_game::Outcome;
use relay_core::{Account, Taken, without_move};
use std::alloc::Global;
use std::marker::Model;
use std::sync::Arc;

/// A follower takes the moves of one board, from the place of its log at which it joined, each once and in order. It may be moved to
/// another thread. To a contract it is its table and its part of what the seats there know. If it is dropped without `leave`,
/// its slot on the board stays taken.
#[derive(Drop)]
pub struct Follower {
    /// The words of its board.
    pub(crate) table: Arc<LiveTable, Global>,
    /// Its seat there.
    pub(crate) seat: Seat<(), View>,
    /// The number of its board's start, and the board's limits.
    pub(crate) setup: BoardSetup,
    /// Its slot.
    pub(crate) slot: u64,
    /// The place of the log at which it joined.
    pub(crate) joined: u64,
    /// How many moves it has taken.
    pub(crate) taken: u64,
    /// The length of the log that it saw last.
    pub(crate) seen: u64,
    /// The outcome that it saw last.
    pub(crate) outcome: Option<Outcome>,
    /// The length of the log at which it was closed, once it has noticed that.
    pub(crate) closing: Option<u64>,
}

impl Model for Follower {
    ghost use Rattle.std.specs.Arc.{arc_value};
    ghost use Rattle.live_board.specs.Seats.{FollowerSeat, IsFollower, part_of};

    ghost Value = { FollowerSeat };

    ghost view = { λ f. record { table = f.seat.table_id; part = part_of f.seat.me.0 } };

    ghost invariant = { λ f. IsFollower (arc_value f.table).shared.table_id (arc_value f.table).shared.key f.seat f.setup f.slot f.joined f.taken f.seen f.outcome f.closing };
}

/// What a follower has had that joined there and has taken this many moves. It was closed at that length, if it was, and has
/// seen the log at the length `seen`.
pub(crate) fn account(joined: u64, taken: u64, seen: u64, closing: Option<u64>) -> Account
    requires joined { joined < 65536 }
    requires taken { taken < 65536 }
    requires seen { seen < 65536 }
    requires closing { (c : ℕ) → closing ≡ Some c → c < 65536 }
    ensures joined { result.joined ≡ joined }
    ensures taken { result.taken ≡ taken }
    ensures limit { result.limit ≡ unwrap_or closing seen }
    ensures cut { result.cut ≡ is_some closing }
{
    Account {
        joined: joined as u16,
        taken: taken as u16,
        limit: closing.unwrap_or(seen) as u16,
        cut: closing.is_some(),
    }
}

impl Follower {
    /// The place of the log at which it joined.
    pub fn joined(&self) -> u16
        ensures { result ≡ self.now.part.joined }
    {
        self.joined as u16
    }

    /// How many moves it has taken.
    pub fn taken(&self) -> u16
        ensures { result ≡ length self.now.part.taken }
    {
        self.taken as u16
    }

    /// What it has had so far, as far as it knows.
    pub(crate) fn account(&self) -> Account
        ensures { result ≡ account_of self.now.part }
    {
        account(self.joined, self.taken, self.seen, self.closing)
    }

    /// The place of the move that it takes next.
    fn next(&self) -> u64
        ensures value { result ≡ next_of self.now.part }
        ensures sound { IsSoundPart self.now.part }
    {
        self.joined + self.taken
    }

    /// Loads the status.
    fn look(&mut self)
        ensures table { self.new.table ≡ self.old.table }
        ensures part { (status : ℕ) × (self.new.part ≡ sees status self.old.part) × (self.old.part.seen ≤ length_in status) × ((c : ℕ) → self.old.part.closing ≡ Some c → c ≤ length_in status)
            × StaysKnown self.old.part.outcome (outcome_in status) }
        ensures sound { IsSoundPart self.new.part }
    {
        let shared = &self.table.shared;
        let status = shared.load::<Look>(&mut self.seat, STATUS);
        self.seen = length_in(status);
        self.outcome = outcome_in(status);
    }

    /// Takes the next move, which lies below the length seen.
    fn gain(&mut self) -> Move
        requires near { next_of self.old.part < self.old.part.seen }
        requires unclosed { (c : ℕ) → self.old.part.closing ≡ Some c → next_of self.old.part < c }
        ensures table { self.new.table ≡ self.old.table }
        ensures part { (cursor : ℕ) × (self.new.part ≡ gains cursor (holding (Some result) self.old.part))
            × StaysKnown self.old.part.closing (closing_in cursor) }
        ensures sound { IsSoundPart self.new.part }
    {
        let word = move_word_at(self.setup.limits, self.joined + self.taken);
        let shared = &self.table.shared;
        let code = shared.load::<Read>(&mut self.seat, word);
        let Some(m) = Move::of_code(code) else {
            unreachable!()
        };
        let cursor = shared.fetch_add::<Take>(&mut self.seat, cursor_at(self.slot), 1);
        self.taken += 1;
        self.closing = closing_in(cursor);
        m
    }

    /// Makes a take when all moves seen have been taken: it loads the status and answers by that. It is inlined: its answer would come back
    /// through memory in bytes and be read in wider pieces, for which a processor waits.
    #[inline(always)]
    #[tactic(auto, using(crate::proofs::Headlines::took_of_game))]
    fn take_unseen(&mut self) -> Taken
        requires taken { self.old.part.seen ≤ next_of self.old.part }
        requires unclosed { (c : ℕ) → self.old.part.closing ≡ Some c → next_of self.old.part < c }
        ensures stays { Stays self.old self.new }
        ensures took { Took self.old self.new result }
        ensures headline { TookOfGame self.new.part result }
        ensures sound { IsSoundPart self.new.part }
    {
        let place = self.next();
        self.look();
        match without_move(self.closing, place, self.seen, self.outcome) {
            Some(answer) => answer,
            None => Taken::Move(place as u16, self.gain()),
        }
    }

    /// Takes the next move of the board, or reports that there is none yet, that the game is over, or that the follower was closed.
    ///
    /// It answers `Cut` if it knows of its closing and stands there. Otherwise, if the next place lies below the length that it
    /// has seen, it takes the move. Otherwise it loads the status, once. If the next place lies below the length that it now sees, it
    /// takes the move; if not, it answers `Over` or `Nothing` by that status.
    ///
    /// Thus the moves that it has taken are, each once and in order, the stretch of the board's log from its joining place on, and the
    /// log is a legal game from its numbered start (`headline`).
    #[tactic(auto, using(crate::proofs::Headlines::took_of_game))]
    pub fn take(&mut self) -> Taken
        ensures stays { Stays self.old self.new }
        ensures cut { self.old.part.closing ≡ Some (next_of self.old.part) → result ≡ Taken.Cut }
        ensures took { Took self.old self.new result }
        ensures headline { TookOfGame self.new.part result }
        ensures sound { IsSoundPart self.new.part }
    {
        let next = self.next();
        match without_move(self.closing, next, self.seen, self.outcome) {
            None => Taken::Move(next as u16, self.gain()),
            Some(Taken::Cut) => Taken::Cut,
            // No move is left in what it has seen, so it looks again.
            Some(_) => self.take_unseen(),
        }
    }

    /// Gives up its slot on the board: loads the status, then swaps its cursor for a vacant one. The account has its closing, as
    /// the swap shows it, or else the length that it loaded: no less than it had seen, and a closing that it knew is in the account. So the
    /// place that it would take next is not beyond the limit. What the part that left had taken is a stretch of the log of a legal game.
    pub fn leave(self) -> (Account, Gone)
        ensures table { result.1.table ≡ self.table }
        ensures none { result.1.knows.parts ≡ [] }
        ensures gone { (status cursor : ℕ) × (result.1.knows.gone ≡ learns cursor (sees status self.part) ∷ []) × (result.0 ≡ account_of (learns cursor (sees status self.part)))
            × HasSeenNoLess self.part (learns cursor (sees status self.part)) }
        ensures within { result.0.joined + result.0.taken ≤ result.0.limit }
        ensures headline { (p : Part) × (result.1.knows.gone ≡ p ∷ []) × IsSoundPart p }
    {
        let mut follower = self;
        follower.look();
        let Follower {
            table,
            mut seat,
            setup: _,
            slot,
            joined,
            taken,
            seen,
            outcome: _,
            closing: _,
        } = follower;
        let cursor = table.shared.swap::<Leave>(&mut seat, cursor_at(slot), 0);
        (
            account(joined, taken, seen, closing_in(cursor)),
            Gone { seat },
        )
    }
}
