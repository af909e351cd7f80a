//! The members of a command's object.

ghost use Rattle.std.specs.Prelude.{◌≡◌};
ghost use Rattle.relay_messages.specs.Fields.{board_at, from_at, has_from, move_at, result_at, result_in, side_at, side_in, small_at, spectator_at, start_at};

use crate::object::Object;
use c960_board::{Colour, Move, read_move};
use c960_game::Result;
use relay_core::{BoardName, Spectator};

/// The name of a board.
#[tactic(auto, using(crate::proofs::Names::name_by_test))]
pub fn board_field<O: Object>(object: &O) -> Option<BoardName>
    ensures { result ≡ board_at (O.said object.now) }
{
    BoardName::new(object.text("board")?.as_bytes())
}

/// The whole number of a member, 0 to 65,535.
fn small_field<O: Object>(object: &O, key: &str) -> Option<u16>
    ensures { result ≡ small_at key.now (O.said object.now) }
{
    u16::try_from(object.number(key)?).ok()
}

/// The number of a start.
pub fn start_field<O: Object>(object: &O) -> Option<u16>
    ensures { result ≡ start_at (O.said object.now) }
{
    small_field(object, "start")
}

/// Whether there is a place from which to follow, of any form.
pub fn has_from<O: Object>(object: &O) -> bool
    ensures { result ≡ has_from (O.said object.now) }
{
    object.has("from")
}

/// The place from which to follow.
pub fn from_field<O: Object>(object: &O) -> Option<u16>
    ensures { result ≡ from_at (O.said object.now) }
{
    small_field(object, "from")
}

/// The number of a spectator.
pub fn spectator_field<O: Object>(object: &O) -> Option<Spectator>
    ensures { result ≡ spectator_at (O.said object.now) }
{
    u32::try_from(object.number("spectator")?).ok()
}

/// A move, read from its text.
pub fn move_field<O: Object>(object: &O) -> Option<Move>
    ensures { result ≡ move_at (O.said object.now) }
{
    read_move(object.text("move")?.as_bytes()).ok()
}

/// The side that a text names.
fn side_of(text: &str) -> Option<Colour>
    ensures { result ≡ side_in text.now }
{
    match text {
        "white" => Some(Colour::White),
        "black" => Some(Colour::Black),
        _ => None,
    }
}

/// The player who resigns, claims or loses on time.
pub fn side_field<O: Object>(object: &O) -> Option<Colour>
    ensures { result ≡ side_at (O.said object.now) }
{
    side_of(object.text("side")?)
}

/// The result that a text names, in the signs of PGN.
fn result_of(text: &str) -> Option<Result>
    ensures { result ≡ result_in text.now }
{
    match text {
        "1-0" => Some(Result::WhiteWins),
        "0-1" => Some(Result::BlackWins),
        "1/2-1/2" => Some(Result::Draw),
        _ => None,
    }
}

/// The result that an arbiter decides.
pub fn result_field<O: Object>(object: &O) -> Option<Result>
    ensures { result ≡ result_at (O.said object.now) }
{
    result_of(object.text("result")?)
}
