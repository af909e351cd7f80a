//! The words of a live board: where each stands in its table, how it is made, and what can be read from it.

ghost use Rattle.std.specs.Prelude.{◌≡◌, ◌<◌, ◌/◌, ◌==◌, Some, None};
ghost use Rattle.live_board.specs.Words.{closing_in, cursor_at, cursor_of, header_word, length_in, move_word_at, outcome_in, outcome_numbered, place_in, status_word, word_count};

use crate::BoardLimits;
use c960_game::Outcome;

/// The number of the status word. The header is word 0.
pub const STATUS: usize = 1;

/// The unit of what a status holds above the length, and of what a header holds above the start.
const FIELD: u64 = 65536;

/// The unit of what a cursor's word holds above the next place.
const MARK: u64 = 4_294_967_296;

/// The number of the cursor word of a slot.
#[inline(always)]
pub fn cursor_at(slot: u64) -> usize
    requires { slot < 65536 }
    ensures { result ≡ cursor_at slot }
{
    slot as usize + 2
}

/// The number of the word of the move at a place of the log.
#[inline(always)]
pub fn move_word_at(limits: BoardLimits, place: u64) -> usize
    requires followers { limits.followers < 65536 }
    requires place { place < 65536 }
    ensures { result ≡ move_word_at limits place }
{
    (limits.followers + 2 + place) as usize
}

/// How many words a table has.
#[inline(always)]
pub fn word_count(limits: BoardLimits) -> u64
    requires followers { limits.followers < 65536 }
    requires plies { limits.plies < 65536 }
    ensures { result ≡ word_count limits }
{
    limits.followers + 2 + limits.plies
}

/// The header of a board with this start and this capacity of its queues.
pub fn header(start: u64, capacity: u64) -> u64
    requires start { start < FIELD }
    requires capacity { capacity < FIELD }
    ensures { result ≡ header_word start capacity }
{
    start + FIELD * capacity
}

/// The status of a board with this many moves and this outcome, if the game is over.
pub fn status(len: u64, outcome: Option<Outcome>) -> u64
    requires { len < FIELD }
    ensures { result ≡ status_word len outcome }
{
    let number = match outcome {
        None => 0,
        Some(outcome) => outcome.code(),
    };
    len + FIELD * number
}

/// The cursor of an open follower that takes the move at this place next.
pub fn open_cursor(place: u64) -> u64
    requires { place < 65536 }
    ensures { result ≡ cursor_of place None }
{
    place + MARK
}

/// The cursor of a follower that takes the move at this place next and was closed at this length.
pub fn closed_cursor(place: u64, closing: u64) -> u64
    requires place { place < 65536 }
    requires closing { closing < 65536 }
    ensures { result ≡ cursor_of place (Some closing) }
{
    place + MARK * (closing + 2)
}

/// The length of the log according to a status.
#[inline(always)]
pub fn length_in(status: u64) -> u64
    ensures { result ≡ length_in status }
{
    status % FIELD
}

/// The outcome with this number.
#[cold]
#[inline(never)]
fn outcome_numbered(code: u64) -> Option<Outcome>
    ensures { result ≡ outcome_numbered code }
{
    Outcome::of_code(code)
}

/// The outcome according to a status. Nearly every look meets a game that goes on, so that case is all that a taker's loop has.
#[inline(always)]
pub fn outcome_in(status: u64) -> Option<Outcome>
    ensures { result ≡ outcome_in status }
{
    let code = status / FIELD;
    if code == 0 {
        return None;
    }
    outcome_numbered(code)
}

/// The place of the move that is taken next, according to a cursor.
#[inline(always)]
pub fn place_in(cursor: u64) -> u64
    ensures { result ≡ place_in cursor }
{
    cursor % MARK
}

/// Whether, according to a cursor, a follower is there that was not closed.
#[inline(always)]
pub fn is_open(cursor: u64) -> bool
    ensures { result ≡ (cursor / MARK == 1) }
{
    cursor / MARK == 1
}

/// The closing according to a cursor.
#[inline(always)]
pub fn closing_in(cursor: u64) -> Option<u64>
    ensures { result ≡ closing_in cursor }
{
    if 1 < cursor / MARK {
        Some(cursor / MARK - 2)
    } else {
        None
    }
}
