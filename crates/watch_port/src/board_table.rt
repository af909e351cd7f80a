//! The boards that a loop shows: its own, as far as it was told of them.

ghost use Rattle.std.specs.Prelude.{◌≡◌, ◌+◌, [], length, slice_get, IfOk, OnErr, OnOk, true, false, option_map};
ghost use Rattle.std.specs.List.{position};
ghost use Rattle.relay_core.specs.Name.{same_name};
ghost use Rattle.rtrb.specs.Ring.{received};
ghost use Rattle.watch_port.specs.Copies.{HasTaken, copied_after, nothing_told, shown_by, summary_of};

use crate::board_event::BoardEvent;
use c960_game::{Game, Limits, Outcome};
use relay_core::BoardName;
use relay_messages::BoardSummary;
use rtrb::Consumer;
use std::alloc::{AllocError, Global};
use std::marker::Model;

/// How many events are taken in at a time.
const MOST_EVENTS: u32 = 65536;

/// A board of a loop, as far as the loop was told of it.
#[derive(Drop)]
pub struct BoardCopy {
    /// Its name.
    pub name: BoardName,
    /// Its game, but for an end that its moves do not make.
    pub game: Game,
    /// How its game ended, once it has.
    pub outcome: Option<Outcome>,
}

impl BoardCopy {
    /// Its present state.
    pub fn summary(&self) -> BoardSummary
        ensures { result ≡ summary_of self.now }
    {
        let last = self.game.len().checked_sub(1);
        BoardSummary {
            board: self.name,
            start: self.game.start(),
            position: self.game.position(),
            last: last.and_then(|place| self.game.move_at(place)),
            plies: self.game.len(),
            outcome: self.outcome,
        }
    }
}

/// Does with boards what was told, or nothing for want of memory.
fn apply(
    alloc: Global,
    limits: &Limits,
    boards: &mut Vec<BoardCopy>,
    event: BoardEvent,
) -> Result<(), AllocError>
    ensures ok { OnOk result (boards.new.items ≡ copied_after limits.now.plies boards.old.items event) }
    ensures err { OnErr result (boards.new.items ≡ boards.old.items) }
{
    match event {
        BoardEvent::Opened(name, start) => {
            let game = Game::open(alloc, start, limits.plies()).map_err(|_| AllocError)?;
            boards.push(BoardCopy {
                name,
                game,
                outcome: None,
            })?;
        }
        // A move that is not legal is none: no board has one.
        BoardEvent::Played(at, m) if usize::from(at) < boards.len() => {
            let board = &mut boards[usize::from(at)];
            let _ = board.game.play(m);
        }
        BoardEvent::Ended(at, outcome) if usize::from(at) < boards.len() => {
            boards[usize::from(at)].outcome = Some(outcome);
        }
        BoardEvent::Played(_, _) | BoardEvent::Ended(_, _) => {}
    }
    Ok(())
}

/// The boards of a loop, in the order of opening, and the ring by which it is told of them. Contracts see what it was told, of which its
/// boards are a function.
#[derive(Drop)]
pub struct BoardTable {
    alloc: Global,
    ring: Consumer<BoardEvent, Global>,
    /// The limits of the boards.
    limits: Limits,
    boards: Vec<BoardCopy>,
}

impl Model for BoardTable {
    ghost use Rattle.watch_port.specs.Copies.{TableRecord};

    ghost Value = { TableRecord };

    ghost use Rattle.watch_port.specs.Inner.{IsTable, table_of};

    ghost view = { table_of };

    ghost invariant = { IsTable };
}

impl BoardTable {
    /// No boards yet. What is told of them comes by this ring, and these are their limits.
    pub(crate) fn new(alloc: Global, ring: Consumer<BoardEvent, Global>, limits: Limits) -> Self
        requires { received ring ≡ [] }
        ensures { result ≡ nothing_told limits.plies }
    {
        BoardTable {
            alloc,
            ring,
            limits,
            boards: Vec::new(alloc),
        }
    }

    /// Takes in what the loop was told, in order. Without memory for a board it goes on from there at the next call.
    ///
    /// # Errors
    ///
    /// There was no memory.
    #[tactic(auto, using(crate::proofs::Copying::taken_none, crate::proofs::Copying::taken_more))]
    pub fn take_in(&mut self) -> Result<(), AllocError>
        ensures { HasTaken self.old self.new }
    {
        for _ in 0..MOST_EVENTS {
            if !self.take_one()? {
                return Ok(());
            }
        }
        Ok(())
    }

    /// Takes in the next of what the loop was told, or nothing for want of memory. Returns whether there was any.
    fn take_one(&mut self) -> Result<bool, AllocError>
        ensures taken { HasTaken self.old self.new }
        ensures one { IfOk result (λ some. some ≡ true → length self.new.told ≡ length self.old.told + 1) }
        ensures none { IfOk result (λ some. some ≡ false → self.new ≡ self.old) }
        ensures unchanged { OnErr result (self.new ≡ self.old) }
    {
        if self.ring.is_empty() {
            return Ok(false);
        }
        let event = *self.ring.peek_known();
        apply(self.alloc, &self.limits, &mut self.boards, event)?;
        let _ = self.ring.pop_known();
        Ok(true)
    }

    /// How many boards there are.
    pub fn len(&self) -> usize
        ensures { result ≡ length (shown_by self.now) }
    {
        self.boards.len()
    }

    /// The board of this index.
    pub fn board(&self, at: usize) -> Option<&BoardCopy>
        ensures { option_map (λ b. b.now) result ≡ slice_get (shown_by self.now) at }
    {
        self.boards.get(at)
    }

    /// The index of the board of this name.
    pub fn find(&self, name: &BoardName) -> Option<usize>
        ensures { result ≡ position (λ b. same_name b.name name.now) (shown_by self.now) }
    {
        self.boards.iter().position(|board| board.name == *name)
    }
}
