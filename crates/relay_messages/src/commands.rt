//! The commands that objects give, one function each.

ghost use Rattle.std.specs.Prelude.{◌≡◌, Some};
ghost use Rattle.relay_messages.specs.Commands.{end_in, ending_in, ending_named, follow_in, from_in, leave_in, open_in, submit_in, take_in, with_members};
ghost use Rattle.relay_messages.specs.Fields.{result_at, side_at};

use crate::fields::{
    board_field, from_field, has_from, move_field, result_field, side_field, spectator_field,
    start_field,
};
use crate::object::Object;
use c960_board::Colour;
use c960_game::{Ending, Result};
use relay_core::Step;

/// Opens a board: `board` and `start`.
pub fn open_of<O: Object>(object: &O) -> Option<Step>
    ensures { result ≡ open_in (O.said object.now) }
{
    if object.count() != 3 {
        return None;
    }
    let board = board_field(object)?;
    let start = start_field(object)?;
    Some(Step::Open(board, start))
}

/// Plays a move: `board` and `move`.
pub fn submit_of<O: Object>(object: &O) -> Option<Step>
    ensures { result ≡ submit_in (O.said object.now) }
{
    if object.count() != 3 {
        return None;
    }
    let board = board_field(object)?;
    let m = move_field(object)?;
    Some(Step::Submit(board, m))
}

/// The side, in an object with no further key.
fn side_of_ending<O: Object>(object: &O) -> Option<Colour>
    ensures { result ≡ with_members 4 (O.said object.now) (side_at (O.said object.now)) }
{
    if object.count() != 4 {
        return None;
    }
    side_field(object)
}

/// The result, in an object with no further key.
fn result_of_ending<O: Object>(object: &O) -> Option<Result>
    ensures { result ≡ with_members 4 (O.said object.now) (result_at (O.said object.now)) }
{
    if object.count() != 4 {
        return None;
    }
    result_field(object)
}

/// An ending that names neither a side nor a result.
fn ending_alone<O: Object>(object: &O, ending: Ending) -> Option<Ending>
    ensures { result ≡ with_members 3 (O.said object.now) (Some ending) }
{
    if object.count() != 3 {
        return None;
    }
    Some(ending)
}

/// The ending of this name, with its side or its result if it has one.
fn ending_of<O: Object>(object: &O, how: &str) -> Option<Ending>
    ensures { result ≡ ending_named (O.said object.now) how.now }
{
    match how {
        "resign" => Some(Ending::Resigns(side_of_ending(object)?)),
        "threefold" => Some(Ending::ClaimThreefold(side_of_ending(object)?)),
        "fifty" => Some(Ending::ClaimFifty(side_of_ending(object)?)),
        "time" => Some(Ending::LosesOnTime(side_of_ending(object)?)),
        "decided" => Some(Ending::Decided(result_of_ending(object)?)),
        "agreed" => ending_alone(object, Ending::Agreed),
        "abandoned" => ending_alone(object, Ending::Abandoned),
        _ => None,
    }
}

/// Ends a game: `board`, `how` and for some endings `side`, for one `result`.
pub fn end_of<O: Object>(object: &O) -> Option<Step>
    ensures { result ≡ end_in (O.said object.now) }
{
    let board = board_field(object)?;
    let how = object.text("how")?;
    let ending = ending_of(object, how)?;
    Some(Step::End(board, ending))
}

/// The place from which to follow, or none without the key, in an object with no further key.
fn from_of<O: Object>(object: &O) -> Option<Option<u16>>
    ensures { result ≡ from_in (O.said object.now) }
{
    match (has_from(object), object.count()) {
        (false, 3) => Some(None),
        (true, 4) => Some(Some(from_field(object)?)),
        _ => None,
    }
}

/// Makes a spectator follow a board: `board`, `spectator` and, unless it is to join at the log's present length, `from`.
pub fn follow_of<O: Object>(object: &O) -> Option<Step>
    ensures { result ≡ follow_in (O.said object.now) }
{
    let board = board_field(object)?;
    let spectator = spectator_field(object)?;
    let from = from_of(object)?;
    Some(Step::Follow(spectator, board, from))
}

/// Takes a spectator's next move: `spectator`.
pub fn take_of<O: Object>(object: &O) -> Option<Step>
    ensures { result ≡ take_in (O.said object.now) }
{
    if object.count() != 2 {
        return None;
    }
    let spectator = spectator_field(object)?;
    Some(Step::Take(spectator))
}

/// Ends a spectator's following: `spectator`.
pub fn leave_of<O: Object>(object: &O) -> Option<Step>
    ensures { result ≡ leave_in (O.said object.now) }
{
    if object.count() != 2 {
        return None;
    }
    let spectator = spectator_field(object)?;
    Some(Step::Leave(spectator))
}
