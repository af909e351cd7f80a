//! Pushing: sending to an outlet what a source gives.

ghost use Rattle.std.specs.Prelude.{◌≡◌, ◌≤◌, OnOk, OnErr};
ghost use Rattle.relay_pushing.specs.Pushing.{HasPushed, IsDeviceFaultCounted, IsNextCounted, IsTurnCounted, Pushed, Turned, text_of};
ghost use Rattle.relay_pushing.specs.Sending.{Counts, Gains};

use crate::bell::Bell;
use crate::last_text::LastText;
use crate::outlet::{Outlet, SendFault};
use crate::source::Source;
use c960_game::Outcome;
use relay_core::Taken;
use std::alloc::Global;
use std::sync::Wait;

/// How pushing ended.
#[derive(Clone, Copy, PartialEq, Eq, Debug)]
pub enum PushEnd {
    /// The game has ended, and that was sent.
    Over(Outcome),
    /// The follower was closed, and that was sent.
    Cut,
    /// A text could not be made or sent.
    Failed(SendFault),
}

/// How a turn of pushing ended.
#[derive(Clone, Copy, PartialEq, Eq, Debug)]
pub enum Turn {
    /// Nothing is there to be taken yet.
    Waits,
    /// The outlet has no more room. There may be more to be taken.
    IsFull,
    /// Pushing is over.
    Ended(PushEnd),
}

/// Sends the text of a take's answer. For each of a board's followers it mostly is to compare the answer with the last one and to send: a
/// call would take as long.
#[inline(always)]
fn send_taken<O: Outlet>(last: &mut LastText, outlet: &mut O, taken: Taken) -> Result<(), SendFault>
    ensures ok { OnOk result (Gains (O.sent outlet.old) (O.sent outlet.new) (text_of taken)) }
    ensures err { OnErr result (O.sent outlet.new ≡ O.sent outlet.old) }
    ensures counts { Counts (O.failures outlet.old) (O.failures outlet.new) result }
{
    match last.make(taken) {
        Ok(()) => outlet.send(last.as_str()),
        Err(_) => Err(SendFault::OutOfMemory),
    }
}

/// Takes what is next and sends it. Returns None if a move was sent, so that there may be more.
fn push_next<O: Outlet, S: Source>(
    last: &mut LastText,
    outlet: &mut O,
    source: &mut S,
) -> Option<Turn>
    ensures pushed { HasPushed S.gives source.old source.new (O.sent outlet.old) (O.sent outlet.new) result }
    ensures kept { O.failures outlet.old ≤ O.failures outlet.new }
    ensures device { IsNextCounted (O.failures outlet.old) (O.failures outlet.new) result }
{
    let taken = source.take();
    match taken {
        Taken::Nothing => Some(Turn::Waits),
        Taken::Move(_, _) => match send_taken(last, outlet, taken) {
            Ok(()) => None,
            Err(fault) => Some(Turn::Ended(PushEnd::Failed(fault))),
        },
        Taken::Over(outcome) => match send_taken(last, outlet, taken) {
            Ok(()) => Some(Turn::Ended(PushEnd::Over(outcome))),
            Err(fault) => Some(Turn::Ended(PushEnd::Failed(fault))),
        },
        Taken::Cut => match send_taken(last, outlet, taken) {
            Ok(()) => Some(Turn::Ended(PushEnd::Cut)),
            Err(fault) => Some(Turn::Ended(PushEnd::Failed(fault))),
        },
    }
}

/// Sends what the source gives as long as the outlet has room: one turn, after which another may go on. What was taken was sent,
/// unless the turn ended pushing: the outlet is asked for room before each take. It neither flushes nor waits. Turns of which the last one
/// ended pushing are together the same as one call of `push_all` (`laws::pushed_on`).
pub fn push_some<O: Outlet, S: Source>(last: &mut LastText, outlet: &mut O, source: &mut S) -> Turn
    ensures turned { Turned S.gives source.old source.new (O.sent outlet.old) (O.sent outlet.new) result }
    ensures kept { O.failures outlet.old ≤ O.failures outlet.new }
    ensures device { IsTurnCounted (O.failures outlet.old) (O.failures outlet.new) result }
{
    for _ in 0..u64::MAX {
        if !outlet.has_room() {
            return Turn::IsFull;
        }
        if let Some(turn) = push_next(last, outlet, source) {
            return turn;
        }
    }
    Turn::IsFull
}

/// Sends what the source gives, each answer once and in order, except `Nothing`. When there is nothing more yet, it flushes
/// the outlet and waits for the bell. It ends if the source answers `Over` or `Cut`, or if a text could not be made or
/// sent; after that it sends no more.
pub fn push_all<R: Wait, O: Outlet, S: Source, B: Bell>(
    rt: &R,
    alloc: Global,
    outlet: &mut O,
    source: &mut S,
    bell: &B,
) -> PushEnd
    ensures pushed { Pushed S.gives source.old source.new (O.sent outlet.old) (O.sent outlet.new) result }
    ensures device { IsDeviceFaultCounted (O.failures outlet.old) (O.failures outlet.new) result }
{
    let mut last = LastText::new(alloc);
    let mut heard = bell.count();
    for _ in rt.forever() {
        match push_next(&mut last, outlet, source) {
            None => {}
            Some(Turn::Waits) => match outlet.flush() {
                Ok(()) => heard = bell.wait(heard),
                Err(fault) => return PushEnd::Failed(fault),
            },
            Some(Turn::IsFull) => {}
            Some(Turn::Ended(end)) => return end,
        }
    }
    unreachable!()
}
