//! A board that is looked at.

ghost use Rattle.std.specs.Prelude.{◌≡◌, ◌++◌, drop, length, OnOk, Some};
ghost use Rattle.c960_game.specs.Positions.{position_at};
ghost use Rattle.relay_hall.specs.Keys.{is_owner};
ghost use Rattle.relay_hall.specs.Reading.{MovesFrom, last_of, summary_of};

use crate::hosted::Hosted;
use crate::key::Key;
use crate::owner::Owner;
use c960_board::{Move, Position};
use c960_game::Outcome;
use live_board::Board;
use relay_core::BoardName;
use relay_messages::BoardSummary;
use std::alloc::AllocError;
use std::marker::Model;

/// A board of a hall, to be looked at: nothing can be done to it. Contracts see its name, its game and its owner.
#[derive(Drop)]
pub struct Shown<'a> {
    pub(crate) name: BoardName,
    pub(crate) hosted: &'a Hosted,
}

impl<'a> Model for Shown<'a> {
    ghost use Rattle.live_board.specs.Board.{game_of};
    ghost use Rattle.relay_hall.specs.Reading.{ShownBoard};

    ghost Value = { ShownBoard };

    ghost view = { λ s. record { name = s.name; game = game_of s.hosted.now.board.knows; owner = s.hosted.now.owner } };
}

impl<'a> Shown<'a> {
    /// Its name.
    pub fn name(&self) -> BoardName
        ensures { result ≡ self.now.name }
    {
        self.name
    }

    /// Who opened it.
    pub fn owner(&self) -> Owner
        ensures { result ≡ self.now.owner }
    {
        self.hosted.owner
    }

    /// The number of its start.
    pub fn start(&self) -> u16
        ensures { result ≡ self.now.game.start }
    {
        self.hosted.board.start()
    }

    /// How many moves were made.
    pub fn plies(&self) -> u16
        ensures { result ≡ length self.now.game.log }
    {
        self.hosted.board.len()
    }

    /// How its game ended, once it has.
    pub fn outcome(&self) -> Option<Outcome>
        ensures { result ≡ self.now.game.outcome }
    {
        self.hosted.board.outcome()
    }

    /// Appends the moves of its log from a place on to `moves`. Returns the outcome of its game.
    ///
    /// # Errors
    ///
    /// There was no memory. Some of the moves may have been appended.
    pub fn moves_from(
        &self,
        from: u16,
        moves: &mut Vec<Move>,
    ) -> Result<Option<Outcome>, AllocError>
        ensures { MovesFrom self.now.game from moves.old.items moves.new.items result }
    {
        append_log(&self.hosted.board, from, moves)?;
        Ok(self.hosted.board.outcome())
    }

    /// The position after that many moves, or None exactly if fewer were made.
    pub fn position_at(&self, place: u16) -> Option<Position>
        ensures { result ≡ position_at self.now.game.start self.now.game.log place }
    {
        self.hosted.board.position_at(place)
    }

    /// Whether it belongs to connections with this key: the connection that opened it had the key.
    pub fn belongs_to(&self, key: &Key) -> bool
        ensures { result ≡ is_owner (Some key.now) self.now.owner.key }
    {
        self.hosted.owner.has(key)
    }

    /// Its present state.
    pub fn summary(&self) -> BoardSummary
        ensures { result ≡ summary_of self.now }
    {
        BoardSummary {
            board: self.name,
            start: self.hosted.board.start(),
            position: self.hosted.board.position(),
            last: last_move(&self.hosted.board),
            plies: self.hosted.board.len(),
            outcome: self.hosted.board.outcome(),
        }
    }
}

/// Appends the moves of a board's log from a place on to `moves`.
///
/// # Errors
///
/// There was no memory.
fn append_log(board: &Board, from: u16, moves: &mut Vec<Move>) -> Result<(), AllocError>
    ensures { OnOk result (moves.new.items ≡ moves.old.items ++ drop from board.now.knows.log) }
{
    for at in from..board.len() {
        let Some(m) = board.move_at(at) else {
            unreachable!();
        };
        moves.push(m)?;
    }
    Ok(())
}

/// The last move of a board's log.
fn last_move(board: &Board) -> Option<Move>
    ensures { result ≡ last_of board.now.knows.log }
{
    match board.len() {
        0 => None,
        plies => board.move_at(plies - 1),
    }
}
