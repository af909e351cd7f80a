//! The relay over live boards.

ghost use Rattle.std.specs.Prelude.{◌≡◌, [], ◌∷◌, false, length, option_map, OnErr, IfOk, IfSome};
ghost use Rattle.std.specs.Map.{lookup};
ghost use Rattle.c960_game.specs.Limits.{LimitNumbers};
ghost use Rattle.relay_core.specs.Headline.{Headline};
ghost use Rattle.relay_core.specs.History.{History, is_accepted, lived};
ghost use Rattle.relay_core.specs.Name.{same_name};
ghost use Rattle.relay_core.specs.Replies.{may_grow, reply_to};
ghost use Rattle.relay_core.specs.Stands.{Stands};
ghost use Rattle.live_board.specs.Board.{game_of, setup_of};
ghost use Rattle.relay_live.specs.Live.{SlotsLeft};

use crate::holdings::Holdings;
use c960_game::Limits;
use live_board::Board;
use relay_core::{BoardName, Reply, Step, Stepper, run_steps};
use std::alloc::{AllocError, Global};
use std::marker::Model;

/// A relay over live boards. Each board carries all its followers' parts at its own seat, takes and leaves for them, and
/// reads their replies off what that seat knows. Contracts see a `RelayRecord`, as they do of a `Relay`.
#[derive(Drop)]
pub struct LiveRelay {
    /// The boards and their followers.
    holdings: Holdings,
    /// The allocator.
    alloc: Global,
}

impl Model for LiveRelay {
    ghost use Rattle.relay_core.specs.State.{RelayRecord};

    ghost Value = { RelayRecord };

    ghost view = { λ r. r.holdings.shown };
}

impl LiveRelay {
    /// A relay with these limits and no board. The map of boards is reserved here.
    pub fn new(alloc: Global, limits: Limits) -> Result<LiveRelay, AllocError>
        ensures stands { IfOk result (λ r. Stands limits r []) }
    {
        Ok(LiveRelay {
            holdings: Holdings::new(alloc, limits)?,
            alloc,
        })
    }

    /// Makes one step. Its reply is the one that the whole history requires: the first refusal whose ground holds, in the order
    /// in which `reply_to` names them, else the accepted reply. An Open or a Follow that nothing else refuses may be refused for lack of
    /// memory. A refused step changes nothing.
    pub fn step(&mut self, step: Step) -> Reply
        ensures stands { (limits : LimitNumbers) (h : History) → Stands limits self.old h
            → Stands limits self.new ((step, result) ∷ h) }
        ensures exact { may_grow step ≡ false → (limits : LimitNumbers) (h : History) → Stands limits self.old h
            → result ≡ reply_to limits h step }
        ensures refused { is_accepted result ≡ false → self.new ≡ self.old }
    {
        self.holdings.step(self.alloc, step)
    }

    /// For every list of steps, in any interleaving of boards and followers, each board's log is a legal Chess960 game from its
    /// numbered start, and the moves that a follower has taken, then those it has queued, are, each once and in order, the
    /// stretch of that log from its joining place to the present or its closing; no move follows a game's end.
    ///
    /// It makes the steps in order and gives one reply for each. Their vector is reserved before the first step, so that running out
    /// of memory means that no step was made.
    pub fn run(&mut self, steps: &[Step]) -> Result<Vec<Reply>, AllocError>
        ensures headline { IfOk result (λ replies. (limits : LimitNumbers) (h : History) → Stands limits self.old h
            → Headline limits self.new (lived h steps.now replies.items)) }
        ensures all { IfOk result (λ replies. length replies.items ≡ length steps.now) }
        ensures unchanged { OnErr result (self.new ≡ self.old) }
    {
        run_steps(self.alloc, self, steps)
    }

    /// The live board of that name, with this relay's limits, or None exactly if none was opened. Its followers are dropped, and their
    /// slots there stay taken: the board has as many slots left as these leave. It allocates nothing.
    pub fn into_board(self, board: &BoardName) -> Option<Board>
        ensures game { option_map (λ b. game_of b.knows) result ≡ lookup (same_name board.now) self.boards }
        ensures setup { IfSome result (λ b. b.knows.setup ≡ setup_of b.knows.setup.start self.limits) }
        ensures slots { IfSome result (λ b. SlotsLeft self board.now b) }
    {
        let LiveRelay { holdings, alloc: _ } = self;
        holdings.into_board(board)
    }
}

impl Stepper for LiveRelay {
    ghost record_of = { λ r. r };

    fn step(&mut self, step: Step) -> Reply {
        self.step(step)
    }
}
