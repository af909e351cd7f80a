//! Encoding an answer as its text.

ghost use Rattle.std.specs.Prelude.{◌≡◌, ◌≤◌, length, string_bytes, IfOk};
ghost use Rattle.relay_messages.specs.Answers.{answer_text, reply_text};
ghost use Rattle.relay_messages.specs.Rooms.{PutsWithin};

use crate::answer::Answer;
use crate::answers::{alone, following, left, played, refused, taken, with_outcome};
use crate::pieces::{OwnText, TextRoom};
use arrayvec::ArrayVec;
use relay_core::Reply;
use std::alloc::{AllocError, Global};

/// Puts the text of a reply into a room, if it has room for it.
#[tactic(auto, using(crate::proofs::WordLengths::refusal_short))]
fn put_reply<T: TextRoom>(room: &mut T, reply: &Reply) -> bool
    ensures put { T.puts room.old (reply_text reply.now) result room.new }
    ensures short { length (reply_text reply.now) ≤ 256 }
{
    match *reply {
        Reply::Opened => alone(room, "opened"),
        Reply::Played { place, outcome } => played(room, place, outcome),
        Reply::Ended(outcome) => with_outcome(room, outcome, "ended"),
        Reply::Following { joined, position } => following(room, joined, &position),
        Reply::Took(answer) => taken(room, answer),
        Reply::Left(account) => left(room, account),
        Reply::Refused(refusal) => refused(room, refusal.code(), refusal.name()),
    }
}

/// Puts the text of an answer into a room, if it has room for it.
#[tactic(auto, using(crate::proofs::WordLengths::fault_short), unfolding(crate::specs::Answers::answer_text))]
fn put_answer<T: TextRoom>(room: &mut T, answer: &Answer) -> bool
    ensures put { T.puts room.old (answer_text answer.now) result room.new }
    ensures short { length (answer_text answer.now) ≤ 256 }
{
    match answer {
        Answer::Reply(reply) => put_reply(room, reply),
        Answer::Fault(fault) => refused(room, fault.code(), fault.name()),
    }
}

/// The text of an answer: one compact JSON object (RFC 8259) without white space, its keys in the order of their bytes.
///
/// # Errors
///
/// There was no memory for the text.
pub fn encode(alloc: Global, answer: &Answer) -> Result<String, AllocError>
    ensures { IfOk result (λ text. string_bytes text ≡ answer_text answer.now) }
{
    let mut own = OwnText { alloc, text: None };
    let _ = put_answer(&mut own, answer);
    own.text.ok_or(AllocError)
}

/// Puts the text of an answer, as `encode` gives it, behind what is in a space of a fixed size, without taking memory. Returns whether
/// there was room for the text, which has at most 256 bytes, and for one byte more, as a line feed. If not, what was there stays.
pub fn encode_within<const ROOM: usize>(answer: &Answer, space: &mut ArrayVec<u8, ROOM>) -> bool
    ensures put { PutsWithin ROOM space.old.items (answer_text answer.now) result space.new.items }
    ensures short { length (answer_text answer.now) ≤ 256 }
{
    put_answer(space, answer)
}
