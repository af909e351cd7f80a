//! A connection: which boards it opened, and what it may do.

ghost use Rattle.std.specs.Prelude.{◌≡◌, ◌≢◌, ◌↔◌, [], true, false, IfOk, OnErr, IfSome, IfNone, string_bytes};
ghost use Rattle.relay_messages.specs.Decoding.{IsDecoding};
ghost use Rattle.relay_pushing.specs.Connections.{Answered, Bars, Ends, IsUnmoved, Leads, MayMake, OwnsNone, OwnsSome, Replied, Stopped, is_among};

use crate::keeper::Keeper;
use c960_game::{Ending, Refusal};
use relay_core::{BoardName, Reply, Step};
use relay_messages::{Answer, Decoder, MessageFault, decode, encode};
use std::alloc::{AllocError, Global};
use std::marker::Model;

/// The step that a text asks for, read by this decoder, or without one in room for this text alone.
fn read_by(alloc: Global, decoder: Option<&mut Decoder>, text: &[u8]) -> Result<Step, MessageFault>
    ensures { IsDecoding text.now result }
{
    match decoder {
        Some(decoder) => decoder.decode(text),
        None => decode(alloc, text),
    }
}

/// A connection. Contracts see the boards that it opened, in the order of opening.
#[derive(Drop)]
pub struct Conn {
    alloc: Global,
    opened: Vec<BoardName>,
}

impl Model for Conn {
    ghost use Rattle.std.specs.Prelude.{ℕ, List};

    ghost Value = { List (List ℕ) };

    ghost view = { λ c. c.opened.items };
}

impl Conn {
    /// A connection that has opened nothing.
    pub fn new(alloc: Global) -> Conn
        ensures { result ≡ [] }
    {
        Conn {
            alloc,
            opened: Vec::new(alloc),
        }
    }

    /// Whether the connection opened the board.
    fn has_opened(&self, board: BoardName) -> bool
        ensures { result ≡ is_among board self.now }
    {
        self.opened.contains(&board)
    }

    /// Whether the connection opened any board.
    pub fn has_opened_any(&self) -> bool
        ensures some { (result ≡ true) ↔ (self.now ≢ []) }
        ensures none { (result ≡ false) ↔ (self.now ≡ []) }
    {
        !self.opened.is_empty()
    }

    /// Whether some board belongs to the connection: it opened one, or the keeper says so.
    fn is_owner<K: Keeper>(&self, keeper: &K) -> bool
        ensures some { result ≡ true → OwnsSome (K.tells keeper.now) self.now }
        ensures none { result ≡ false → OwnsNone (K.tells keeper.now) self.now }
    {
        self.has_opened_any() || keeper.owns_any()
    }

    /// Why the connection may not make the step, if it may not: `WrongMode` for a Take or a Leave, and for a Follow if some board belongs
    /// to it; for a Submit or an End `NotYourBoard`, or `NoSuchBoard` if the keeper knows no such board, unless that board belongs to it.
    fn refusal<K: Keeper>(&self, step: &Step, keeper: &K) -> Option<Refusal>
        ensures some { IfSome result (λ refusal. Bars (K.tells keeper.now) self.now step.now refusal) }
        ensures none { IfNone result (MayMake (K.tells keeper.now) self.now step.now) }
    {
        match *step {
            Step::Open(_, _) => None,
            Step::Submit(board, _) | Step::End(board, _) => {
                if self.has_opened(board) || keeper.owns(&board) {
                    None
                } else if keeper.knows(&board) {
                    Some(Refusal::NotYourBoard)
                } else {
                    Some(Refusal::NoSuchBoard)
                }
            }
            Step::Follow(_, _, _) => {
                if self.is_owner(keeper) {
                    Some(Refusal::WrongMode)
                } else {
                    None
                }
            }
            Step::Take(_) | Step::Leave(_) => Some(Refusal::WrongMode),
        }
    }

    /// Replies to a step: with its refusal if the connection may not make it, else with the reply of the keeper, which made it.
    ///
    /// # Errors
    ///
    /// There was no memory for one more opened board. It is reserved before the step is made, so none was made.
    fn reply<K: Keeper>(&mut self, step: &Step, keeper: &mut K) -> Result<Reply, AllocError>
        ensures ok { IfOk result (λ reply. Replied (K.tells keeper.old) K.makes self.old keeper.old step.now reply self.new keeper.new) }
        ensures err { OnErr result (IsUnmoved self.old keeper.old self.new keeper.new) }
    {
        if let Some(refusal) = self.refusal(step, keeper) {
            return Ok(Reply::Refused(refusal));
        }
        let Step::Open(board, _) = *step else {
            return Ok(keeper.step(*step));
        };
        self.opened.reserve(1)?;
        let reply = keeper.step(*step);
        if !matches!(reply, Reply::Refused(_)) {
            self.opened.push_reserved(board);
        }
        Ok(reply)
    }

    /// The answer to a text, which this decoder reads, if there is one.
    fn answer_to<K: Keeper>(
        &mut self,
        decoder: Option<&mut Decoder>,
        text: &[u8],
        keeper: &mut K,
    ) -> Result<Answer, AllocError>
        ensures ok { IfOk result (λ answer. Leads (K.tells keeper.old) K.makes self.old keeper.old text.now answer self.new keeper.new) }
        ensures err { OnErr result (IsUnmoved self.old keeper.old self.new keeper.new) }
    {
        match read_by(self.alloc, decoder, text) {
            Ok(step) => Ok(Answer::Reply(self.reply(&step, keeper)?)),
            Err(fault) => Ok(Answer::Fault(fault)),
        }
    }

    /// Answers one text: with the fault of its decoding; with the refusal if the connection may not make the step that it asks for; else
    /// with the reply to that step, which the keeper made.
    ///
    /// A connection may not take or leave. It may not follow once it has opened a board, or if the keeper says that one belongs to it
    /// (`WrongMode`). It may submit to and end the boards that it opened and those that the keeper says are its own, and no others
    /// (`NotYourBoard`, or `NoSuchBoard` if the keeper knows no such board).
    ///
    /// # Errors
    ///
    /// There was no memory. The keeper made the step or none was made; in either case the boards that were opened are known.
    #[tactic(auto, using(crate::proofs::Stops::stopped_after))]
    pub fn answer<K: Keeper>(&mut self, text: &[u8], keeper: &mut K) -> Result<String, AllocError>
        ensures ok { IfOk result (λ s. Answered (K.tells keeper.old) K.makes self.old keeper.old text.now (string_bytes s) self.new keeper.new) }
        ensures err { OnErr result (Stopped (K.tells keeper.old) K.makes self.old keeper.old text.now self.new keeper.new) }
    {
        let answer = self.answer_to(None, text, keeper)?;
        encode(self.alloc, &answer)
    }

    /// The same for a caller that answers many connections: it keeps one decoder for all of them, which has the room for the places of a
    /// text that is neither usual nor compact. `answer` clears such room for each of these texts.
    ///
    /// # Errors
    ///
    /// Those of `answer`.
    #[tactic(auto, using(crate::proofs::Stops::stopped_after))]
    pub fn answer_with<K: Keeper>(
        &mut self,
        decoder: &mut Decoder,
        text: &[u8],
        keeper: &mut K,
    ) -> Result<String, AllocError>
        ensures ok { IfOk result (λ s. Answered (K.tells keeper.old) K.makes self.old keeper.old text.now (string_bytes s) self.new keeper.new) }
        ensures err { OnErr result (Stopped (K.tells keeper.old) K.makes self.old keeper.old text.now self.new keeper.new) }
    {
        let answer = self.answer_to(Some(decoder), text, keeper)?;
        encode(self.alloc, &answer)
    }

    /// Ends each board that the connection opened as abandoned, in the order of opening. A game that has already ended stays as it is.
    pub fn finish<K: Keeper>(self, keeper: &mut K)
        ensures { Ends K.makes keeper.old self keeper.new }
    {
        for board in self.opened.iter() {
            let _ = keeper.step(Step::End(*board, Ending::Abandoned));
        }
    }
}
