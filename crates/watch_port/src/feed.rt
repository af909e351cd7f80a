//! What one loop is told of boards: by a ring of its own, so that nobody waits for it.

ghost use Rattle.std.specs.Prelude.{◌≡◌, ◌<◌, ◌∷◌, ◌++◌, [], length, vec_len, vec_capacity, IfOk, IsTrue, IsFalse, true};
ghost use Rattle.watch_port.specs.Copies.{nothing_told};
ghost use Rattle.watch_port.specs.Telling.{IsPut, end_of, is_told_of_the_end, moves_told, opening_of, told_after, told_by};

use crate::board_event::{BoardEvent, Progress};
use crate::board_table::BoardTable;
use c960_board::Move;
use c960_game::Limits;
use relay_hall::Shown;
use rtrb::{Producer, RingBuffer};
use std::alloc::{AllocError, Global};
use std::marker::Model;

/// How many events a loop may have yet to take in. What is beyond that it is told later.
const MOST_EVENTS: usize = 4096;

/// What one loop is told. A ring that is full is no loss: what it does not take is told later, from where the loop is. Contracts see all
/// that the loop was told.
#[derive(Drop)]
pub struct Feed {
    ring: Producer<BoardEvent, Global>,
    /// How far, of each board that it was told of.
    told: Vec<Progress>,
}

impl Model for Feed {
    ghost use Rattle.std.specs.Prelude.{List};
    ghost use Rattle.watch_port.specs.declared.board_event.BoardEvent.{BoardEvent};

    ghost Value = { List BoardEvent };

    ghost use Rattle.watch_port.specs.Inner.{IsFeed, sent_by};

    ghost view = { sent_by };

    ghost invariant = { IsFeed };
}

/// Notes what was put into a ring.
fn note(told: &mut Vec<Progress>, event: &BoardEvent)
    requires { vec_len told.old < vec_capacity told.old }
    ensures { told.new.items ≡ told_after told.old.items event.now }
{
    match *event {
        BoardEvent::Opened(_, _) => told.push_reserved(Progress {
            moves: 0,
            is_over: false,
        }),
        BoardEvent::Played(at, _) if usize::from(at) < told.len() => {
            let board = &mut told[usize::from(at)];
            board.moves = board.moves.saturating_add(1);
        }
        BoardEvent::Ended(at, _) if usize::from(at) < told.len() => {
            told[usize::from(at)].is_over = true;
        }
        BoardEvent::Played(_, _) | BoardEvent::Ended(_, _) => {}
    }
}

impl Feed {
    /// A feed, and the boards of the loop that is told by it, with these limits.
    ///
    /// # Errors
    ///
    /// There was no memory.
    pub fn new(alloc: Global, limits: Limits) -> Result<(Feed, BoardTable), AllocError>
        ensures { IfOk result (λ made. (made.0 ≡ []) × (made.1 ≡ nothing_told limits.plies)) }
    {
        let (ring, receiver) = RingBuffer::new(alloc, MOST_EVENTS)?;
        let feed = Feed {
            ring,
            told: Vec::new(alloc),
        };
        Ok((feed, BoardTable::new(alloc, receiver, limits)))
    }

    /// How many moves of the board of this index the loop was told.
    pub(crate) fn moves_told(&self, at: u16) -> u16
        ensures { result ≡ moves_told self.now at }
    {
        self.told.get(usize::from(at)).map_or(0, |told| told.moves)
    }

    /// Whether the loop was told how the game of the board of this index ended.
    fn knows_the_end(&self, at: u16) -> bool
        ensures { result ≡ is_told_of_the_end self.now at }
    {
        let told = self.told.get(usize::from(at));
        told.map_or(false, |told| told.is_over)
    }

    /// Tells the loop of the board of this index what it has not been told, in order, as far as there is room. These are the moves from a
    /// place on, and the loop was told of those before. Returns whether that is all.
    pub(crate) fn tell(&mut self, at: u16, board: &Shown<'_>, from: u16, moves: &[Move]) -> bool {
        if !self.tell_opened(at, board) {
            return false;
        }
        let told = self.moves_told(at).saturating_sub(from);
        for m in moves.iter().skip(usize::from(told)) {
            if !self.put(BoardEvent::Played(at, *m)) {
                return false;
            }
        }
        self.tell_end(at, board)
    }

    /// Tells the loop that a board was opened, once it knows of those before.
    fn tell_opened(&mut self, at: u16, board: &Shown<'_>) -> bool
        ensures put { IsPut self.old (opening_of self.old at board.now) result self.new }
    {
        if usize::from(at) != self.told.len() {
            return usize::from(at) < self.told.len();
        }
        self.put(BoardEvent::Opened(board.name(), board.start()))
    }

    /// Tells the loop how the game ended, once it has, and only once.
    fn tell_end(&mut self, at: u16, board: &Shown<'_>) -> bool
        ensures put { IsPut self.old (end_of self.old at board.now) result self.new }
    {
        match board.outcome() {
            Some(outcome) if !self.knows_the_end(at) => self.put(BoardEvent::Ended(at, outcome)),
            _ => true,
        }
    }

    /// Puts this into the ring, and notes it. Returns whether there was room.
    fn put(&mut self, event: BoardEvent) -> bool
        ensures put { IsTrue result → self.new ≡ self.old ++ event ∷ [] }
        ensures full { IsFalse result → self.new ≡ self.old }
    {
        if self.told.reserve(1).is_err() || self.ring.push(event).is_err() {
            return false;
        }
        note(&mut self.told, &event);
        true
    }
}
