//! The spectators of one board, and the tape that they are sent.

use crate::board_table::BoardTable;
use c960_board::Position;
use indexmap::IndexSet;
use relay_watching::{SpectatorConnection, Tape};
use std::alloc::{AllocError, Global};

/// The spectators of one board.
#[derive(Drop)]
pub(crate) struct Audience {
    /// The index of the board.
    pub(crate) board: usize,
    pub(crate) tape: Tape,
    /// The keys of those that watch it.
    pub(crate) spectators: IndexSet<usize>,
    /// The place at which a spectator last joined, and the position there.
    last: Option<(u16, Position)>,
}

impl Audience {
    /// An audience of the board of this index, still without spectators.
    pub(crate) fn new(alloc: Global, board: usize) -> Audience {
        Audience {
            board,
            tape: Tape::new(alloc),
            spectators: IndexSet::new(alloc),
            last: None,
        }
    }

    /// Puts on the tape what it lacks of its board: the moves from its length on, and the end. If that is anything, its spectators are
    /// added to `untold`. The next call does what is missing for want of memory.
    pub(crate) fn refresh(
        &mut self,
        boards: &BoardTable,
        untold: &mut Vec<usize>,
    ) -> Result<(), AllocError> {
        let Some(board) = boards.board(self.board) else {
            return Ok(());
        };
        let lacks_end = board.outcome.is_some() && !self.tape.is_over();
        if lacks_end || self.tape.len() < usize::from(board.game.len()) {
            untold.extend_from_slice(self.spectators.as_slice())?;
        }
        for place in place_of(self.tape.len())..board.game.len() {
            match board.game.move_at(place) {
                Some(m) if !self.tape.is_over() && self.tape.len() < 65536 => self.tape.push(m)?,
                _ => break,
            }
        }
        match board.outcome {
            Some(outcome) if !self.tape.is_over() => self.tape.finish(outcome),
            _ => Ok(()),
        }
    }

    /// A connection for a spectator that joins at a place of the tape, or at its end. There is none if its board has not reached that
    /// place.
    pub(crate) fn join(
        &mut self,
        boards: &BoardTable,
        from: Option<u16>,
    ) -> Result<Option<SpectatorConnection>, AllocError> {
        let place = from.unwrap_or(place_of(self.tape.len()));
        match self.position_at(boards, place) {
            Some(position) if usize::from(place) <= self.tape.len() => {
                Ok(Some(self.tape.join(place, &position)?))
            }
            _ => Ok(None),
        }
    }

    /// The position at a place, which is the last that was asked for from then on. When many spectators arrive at once, they join at the
    /// same.
    fn position_at(&mut self, boards: &BoardTable, place: u16) -> Option<Position> {
        if !self.last.is_some_and(|(at, _)| at == place) {
            self.last = Some((place, boards.board(self.board)?.game.position_at(place)?));
        }
        self.last.map(|(_, position)| position)
    }
}

/// The place behind so many moves, the last one if there are more.
fn place_of(moves: usize) -> u16 {
    u16::try_from(moves).unwrap_or(u16::MAX)
}
