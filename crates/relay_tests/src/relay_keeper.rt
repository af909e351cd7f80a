//! A keeper over a relay, and what connections are answered over it. Its relations say which reply a step gets and what
//! is made, so that what is proved of a connection over any keeper is tried here with relations that can be false.

ghost use Rattle.std.specs.Prelude.{◌≡◌, [], IfOk, OnErr, string_bytes};
ghost use Rattle.c960_game.specs.Limits.{LimitNumbers};
ghost use Rattle.relay_core.specs.History.{History};
ghost use Rattle.relay_core.specs.Stands.{Stands};
ghost use Rattle.relay_tests.specs.Asked.{IsAnswered, IsUnanswered, abandoned};
ghost use Rattle.relay_tests.specs.Keeping.{Makes, board_opened};

use c960_game::Limits;
use relay_core::{BoardName, Relay, Reply, Step};
use relay_pushing::{Conn, Keeper};
use std::alloc::{AllocError, Global};
use std::marker::Model;

/// A relay that keeps the boards of connections. Contracts see the relay.
#[derive(Drop)]
pub struct RelayKeeper {
    relay: Relay,
    /// The names of the boards, in the order of opening. There is room for as many as may be opened.
    names: Vec<BoardName>,
}

impl Model for RelayKeeper {
    ghost use Rattle.std.specs.Prelude.{vec_capacity};
    ghost use Rattle.relay_core.specs.State.{RelayRecord};
    ghost use Rattle.relay_tests.specs.Keeping.{IsKeeping};

    ghost Value = { RelayRecord };

    ghost view = { λ k. k.relay };

    ghost invariant = { λ k. IsKeeping k.relay k.names.items (vec_capacity k.names) };
}

/// The board that a step with this reply has opened.
fn board_opened(step: &Step, reply: &Reply) -> Option<BoardName>
    ensures { result ≡ board_opened step.now reply.now }
{
    match *step {
        Step::Open(board, _) if !matches!(*reply, Reply::Refused(_)) => Some(board),
        _ => None,
    }
}

impl RelayKeeper {
    /// A keeper of a relay with these limits and no board.
    ///
    /// # Errors
    ///
    /// There was no memory for the relay, or for the names of as many boards as it may have.
    pub fn new(alloc: Global, limits: Limits) -> Result<RelayKeeper, AllocError>
        ensures { IfOk result (λ keeper. Stands limits keeper []) }
    {
        let names = Vec::with_capacity(alloc, usize::from(limits.boards()))?;
        let relay = Relay::new(alloc, limits)?;
        Ok(RelayKeeper { relay, names })
    }

    /// Makes a step, and notes the name of the board that it opened.
    fn make(&mut self, step: &Step) -> Reply
        ensures { Makes self.old step.now result self.new }
    {
        let reply = self.relay.step(*step);
        if let Some(board) = board_opened(step, &reply) {
            self.names.push_reserved(board);
        }
        reply
    }

    /// Answers a text of a connection by `Conn::answer`. At whatever history the relay stands, the answer is the text of what this
    /// history requires, and the relay then stands at the history with the step that the connection might make.
    ///
    /// # Errors
    ///
    /// There was no memory for the text of the answer. The step was made, or none was.
    #[tactic(auto, using(crate::proofs::Answered::answered, crate::proofs::Answered::unanswered))]
    pub fn answer(&mut self, conn: &mut Conn, text: &[u8]) -> Result<String, AllocError>
        ensures ok { IfOk result (λ s. (limits : LimitNumbers) (h : History) → Stands limits self.old h
            → IsAnswered limits h conn.old text.now (string_bytes s) self.new conn.new) }
        ensures err { OnErr result ((limits : LimitNumbers) (h : History) → Stands limits self.old h
            → IsUnanswered limits h conn.old text.now self.new conn.new) }
    {
        conn.answer(text, self)
    }

    /// Ends a connection by `Conn::finish`: the history is extended by the ends of the boards that it opened, as abandoned and in the order
    /// of opening, and by nothing else.
    pub fn finish(&mut self, conn: Conn)
        ensures { (limits : LimitNumbers) (h : History) → Stands limits self.old h
            → Stands limits self.new (abandoned limits h conn) }
    {
        conn.finish(self);
    }
}

impl Keeper for RelayKeeper {
    ghost use Rattle.relay_tests.specs.Keeping.{Makes, Tells};

    ghost tells = { λ keeper question answer. Tells keeper question answer };

    ghost makes = { λ old step reply later. Makes old step reply later };

    fn knows(&self, board: &BoardName) -> bool {
        self.names.contains(board)
    }

    fn owns(&self, _board: &BoardName) -> bool {
        false
    }

    fn owns_any(&self) -> bool {
        false
    }

    fn step(&mut self, step: Step) -> Reply {
        self.make(&step)
    }
}
