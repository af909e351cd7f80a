//! The frames that are put on a tape or greet a spectator, each as a vector of its own.

ghost use Rattle.std.specs.Prelude.{◌≡◌, IfOk};
ghost use Rattle.relay_frames.specs.Frames.{text_frame};
ghost use Rattle.relay_messages.specs.Answers.{answer_text};
ghost use Rattle.relay_watching.specs.Promised.{done_frame};
ghost use Rattle.relay_watching.specs.Texts.{following_answer, move_answer, over_answer};

use c960_board::{Move, Position};
use c960_game::Outcome;
use relay_core::{Reply, Taken};
use relay_frames::{Code, outgoing};
use relay_messages::{Answer, encode};
use std::alloc::{AllocError, Global};

/// The frame of a reply's text.
fn reply_frame(alloc: Global, reply: Reply) -> Result<Vec<u8>, AllocError>
    ensures { IfOk result (λ frame. frame.items ≡ text_frame (answer_text (Answer.Reply reply))) }
{
    let text = encode(alloc, &Answer::Reply(reply))?;
    let mut frame = Vec::new(alloc);
    outgoing::text(text.as_str(), &mut frame)?;
    Ok(frame)
}

/// The frame of the answer to a spectator that joins at a place with this position.
#[tactic(auto, unfolding(crate::specs::Texts::following_answer))]
pub(crate) fn following(
    alloc: Global,
    place: u16,
    position: &Position,
) -> Result<Vec<u8>, AllocError>
    ensures { IfOk result (λ frame. frame.items ≡ text_frame (following_answer place position.now)) }
{
    let position = *position;
    reply_frame(
        alloc,
        Reply::Following {
            joined: place,
            position,
        },
    )
}

/// The frame of a move at its place.
#[tactic(auto, unfolding(crate::specs::Texts::move_answer))]
pub(crate) fn moved(alloc: Global, place: u16, m: Move) -> Result<Vec<u8>, AllocError>
    ensures { IfOk result (λ frame. frame.items ≡ text_frame (move_answer place m)) }
{
    reply_frame(alloc, Reply::Took(Taken::Move(place, m)))
}

/// The frame of an outcome.
#[tactic(auto, unfolding(crate::specs::Texts::over_answer))]
pub(crate) fn over(alloc: Global, outcome: Outcome) -> Result<Vec<u8>, AllocError>
    ensures { IfOk result (λ frame. frame.items ≡ text_frame (over_answer outcome)) }
{
    reply_frame(alloc, Reply::Took(Taken::Over(outcome)))
}

/// The close that says that everything was sent.
pub(crate) fn done(alloc: Global) -> Result<Vec<u8>, AllocError>
    ensures { IfOk result (λ frame. frame.items ≡ done_frame) }
{
    let mut frame = Vec::new(alloc);
    outgoing::close(Some(Code::NORMAL), &mut frame)?;
    Ok(frame)
}
