//! The boards, by their names.

ghost use Rattle.std.specs.Prelude.{◌≡◌, ◌≤◌, ◌<◌, ◌+◌, ℕ, List, None, is_some, length, option_copied, option_map, cond, IfOk, OnErr, OnOk, [], ◌∷◌, ◌++◌};
ghost use Rattle.std.specs.Map.{lookup};
ghost use Rattle.c960_game.specs.Record.{with_move};
ghost use Rattle.relay_core.specs.BoardAnswers.{end_answer_at, ended_by, length_at, outcome_at, play_answer_at};
ghost use Rattle.relay_core.specs.Name.{same_name};

use crate::name::BoardName;
use c960_board::Move;
use c960_game::{Ending, Game, Outcome, Refusal};
use indexmap::IndexMap;
use std::alloc::{AllocError, Global};
use std::marker::Model;

/// The boards and their games, in the order of opening. Contracts see a `HeldBoards`.
#[derive(Drop)]
pub(crate) struct Boards {
    games: IndexMap<BoardName, Game>,
}

impl Model for Boards {
    ghost use Rattle.std.specs.HashMap.{spare};
    ghost use Rattle.relay_core.specs.Inner.Maps.{HeldBoards};

    ghost Value = { HeldBoards };

    ghost view = { λ b. record {
      entries = b.games.entries;
      room = spare b.games;
    } };
}

impl Boards {
    /// An empty set of boards, with room for `most` of them.
    pub(crate) fn with_capacity(alloc: Global, most: u16) -> Result<Boards, AllocError>
        ensures none { IfOk result (λ boards. boards.entries ≡ []) }
        ensures room { IfOk result (λ boards. most ≤ boards.room) }
    {
        Ok(Boards {
            games: IndexMap::with_capacity(alloc, usize::from(most))?,
        })
    }

    /// How many boards there are.
    pub(crate) fn len(&self) -> usize
        ensures { result ≡ length self.now.entries }
    {
        self.games.len()
    }

    /// Whether there is a board of this name.
    pub(crate) fn contains(&self, board: BoardName) -> bool
        ensures { result ≡ is_some (lookup (same_name board) self.now.entries) }
    {
        self.games.contains_key(&board)
    }

    /// The game of a board.
    pub(crate) fn get(&self, board: BoardName) -> Option<&Game>
        ensures { option_copied result ≡ lookup (same_name board) self.now.entries }
    {
        self.games.get(&board)
    }

    /// The outcome of a board's game, once it is over.
    pub(crate) fn outcome_of(&self, board: BoardName) -> Option<Outcome>
        ensures { result ≡ outcome_at (lookup (same_name board) self.now.entries) }
    {
        self.get(board)?.outcome()
    }

    /// The length of a board's log, or 0 if there is no such board.
    pub(crate) fn length_of(&self, board: BoardName) -> u16
        ensures { result ≡ length_at (lookup (same_name board) self.now.entries) }
    {
        match self.get(board) {
            Some(game) => game.len(),
            None => 0,
        }
    }

    /// Makes a move on a board. Returns its place and the outcome that it brings about, if any. It allocates nothing.
    #[tactic(auto, using(std::proofs::lemmas::Map::Steps::set_value_same))]
    pub(crate) fn play(
        &mut self,
        board: BoardName,
        m: Move,
    ) -> Result<(u16, Option<Outcome>), Refusal>
        ensures answer { result ≡ play_answer_at m (lookup (same_name board) self.old.entries) }
        ensures refused { OnErr result (self.new.entries ≡ self.old.entries) }
        ensures updates { OnOk result ((q : List ℕ) → lookup (same_name q) self.new.entries
            ≡ cond (same_name board q) (option_map (λ game. with_move game m) (lookup (same_name board) self.old.entries))
            (lookup (same_name q) self.old.entries)) }
        ensures len { length self.new.entries ≡ length self.old.entries }
        ensures room { self.new.room ≡ self.old.room }
    {
        let Some(game) = self.games.get_mut(&board) else {
            return Err(Refusal::NoSuchBoard);
        };
        let place = game.len();
        let outcome = game.play(m)?;
        Ok((place, outcome))
    }

    /// Ends the game of a board. Returns the outcome that the ending names. It allocates nothing.
    #[tactic(auto, using(std::proofs::lemmas::Map::Steps::set_value_same))]
    pub(crate) fn end(&mut self, board: BoardName, ending: Ending) -> Result<Outcome, Refusal>
        ensures answer { result ≡ end_answer_at ending (lookup (same_name board) self.old.entries) }
        ensures refused { OnErr result (self.new.entries ≡ self.old.entries) }
        ensures updates { OnOk result ((q : List ℕ) → lookup (same_name q) self.new.entries
            ≡ cond (same_name board q) (option_map (ended_by ending) (lookup (same_name board) self.old.entries))
            (lookup (same_name q) self.old.entries)) }
        ensures len { length self.new.entries ≡ length self.old.entries }
        ensures room { self.new.room ≡ self.old.room }
    {
        let Some(game) = self.games.get_mut(&board) else {
            return Err(Refusal::NoSuchBoard);
        };
        game.end(ending)
    }

    /// Adds a board that is not there, where there is room for it. It takes no memory.
    pub(crate) fn add(&mut self, board: BoardName, game: Game)
        requires absent { lookup (same_name board) self.old.entries ≡ None }
        requires room { 0 < self.old.room }
        ensures added { self.new.entries ≡ self.old.entries ++ (board, game) ∷ [] }
        ensures room { self.old.room ≤ self.new.room + 1 }
    {
        let Ok(_) = self.games.insert(board, game) else {
            unreachable!();
        };
    }
}
