//! What the seats of a live board's table know, and the rule of the table. No value of `Part` or `View` is ever created: they occur only
//! in contracts.

use crate::note::Note;
use crate::setup::BoardSetup;
use crate::step::BoardStep;
use atomic_table::TableRule;
use c960_board::Move;
use c960_game::Outcome;
use std::collections::LinkedList;

/// What a follower knows: its part of a view.
pub struct Part {
    /// What its board was opened with.
    pub setup: BoardSetup,
    /// Its slot.
    pub slot: u64,
    /// The place of the log at which it joined.
    pub joined: u64,
    /// The moves of the log before that place.
    pub before: LinkedList<Move>,
    /// The moves that it has taken.
    pub taken: LinkedList<Move>,
    /// The length of the log that it has seen.
    pub seen: u64,
    /// The outcome that it has seen.
    pub outcome: Option<Outcome>,
    /// How often the status was loaded for it.
    pub loads: u64,
    /// The move that it has loaded and not yet taken.
    pub loaded: Option<Move>,
    /// The closing that it has noticed.
    pub closing: Option<u64>,
}

/// What a seat knows.
pub struct View {
    /// Whether it is the board's. The fields from the log to the steps made are the board's alone.
    pub owns: bool,
    /// What the board was opened with.
    pub setup: BoardSetup,
    /// The moves that were made.
    pub log: LinkedList<Move>,
    /// The outcome, once the game is over.
    pub outcome: Option<Outcome>,
    /// The move that was stored and not yet published.
    pub stored: Option<Move>,
    /// What the board notes of each slot.
    pub notes: LinkedList<Note>,
    /// How often it has loaded each cursor. An exchange that failed counts as a load, one that closed a follower does not.
    pub checks: LinkedList<u64>,
    /// The slots that it closed, in order.
    pub closings: LinkedList<u64>,
    /// The steps that it made for itself, in order.
    pub made: LinkedList<BoardStep>,
    /// The followers' parts that the seat carries.
    pub parts: LinkedList<Part>,
    /// The parts that left through this seat.
    pub gone: LinkedList<Part>,
}

/// The rule of a live board's table: words and views show a shared board to which events led.
pub struct LiveRule;

impl TableRule<(), View, BoardSetup> for LiveRule {
    ghost use Rattle.live_board.specs.Rule.{ShowsReached};
    ghost use Rattle.live_board.specs.Views.{starting};

    ghost holds = { ShowsReached };

    ghost first = { starting };
}
