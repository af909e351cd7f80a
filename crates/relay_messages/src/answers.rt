//! The texts of answers, one function each, put into any room. Each returns whether there was room.

ghost use Rattle.std.specs.Prelude.{◌≡◌, ◌+◌, ◌≤◌, length};
ghost use Rattle.relay_messages.specs.Answers.{alone_text, flag_text, following_text, left_text, moved_text, outcome_alone_text, played_text, refused_text, taken_text};

use crate::pieces::TextRoom;
use c960_board::{Move, Position, move_bytes, write_fen};
use c960_game::Outcome;
use itoa::Buffer;
use relay_core::{Account, Taken};
use std::str;

/// An answer that consists of its kind alone. It is always inlined, so that the lengths of its pieces are known where it is called.
#[inline(always)]
pub fn alone<T: TextRoom>(room: &mut T, reply: &str) -> bool
    ensures put { T.puts room.old (alone_text reply.now) result room.new }
    ensures short { length (alone_text reply.now) ≤ 12 + length reply.now }
{
    room.put(&["{\"reply\":\"", reply, "\"}"])
}

/// The answer to an accepted move.
#[tactic(auto, using(crate::proofs::WordLengths::outcome_short))]
pub fn played<T: TextRoom>(room: &mut T, place: u16, outcome: Option<Outcome>) -> bool
    ensures put { T.puts room.old (played_text place outcome) result room.new }
    ensures short { length (played_text place outcome) ≤ 256 }
{
    let mut buffer = Buffer::new();
    let place = buffer.format(place);
    match outcome {
        None => room.put(&[
            "{\"outcome\":null,\"place\":",
            place,
            ",\"reply\":\"played\"}",
        ]),
        Some(outcome) => room.put(&[
            "{\"outcome\":\"",
            outcome.text(),
            "\",\"place\":",
            place,
            ",\"reply\":\"played\"}",
        ]),
    }
}

/// The answer that reports an outcome: to an accepted ending, and to a take after the end.
#[tactic(auto, using(crate::proofs::WordLengths::outcome_short))]
pub fn with_outcome<T: TextRoom>(room: &mut T, outcome: Outcome, reply: &'static str) -> bool
    ensures put { T.puts room.old (outcome_alone_text outcome reply.now) result room.new }
    ensures short { length (outcome_alone_text outcome reply.now) ≤ 128 + length reply.now }
{
    room.put(&[
        "{\"outcome\":\"",
        outcome.text(),
        "\",\"reply\":\"",
        reply,
        "\"}",
    ])
}

/// The answer to an accepted Follow.
#[tactic(auto, using(crate::proofs::Ascii::fen_is_utf8))]
pub fn following<T: TextRoom>(room: &mut T, joined: u16, position: &Position) -> bool
    ensures put { T.puts room.old (following_text joined position.now) result room.new }
    ensures short { length (following_text joined position.now) ≤ 256 }
{
    // Hence its text is ASCII.
    prove!(position.parts().number >= 1);
    let bytes = write_fen(position);
    let fen = str::from_utf8(bytes.as_slice()).unwrap();
    let mut buffer = Buffer::new();
    let joined = buffer.format(joined);
    room.put(&[
        "{\"fen\":\"",
        fen,
        "\",\"joined\":",
        joined,
        ",\"reply\":\"following\"}",
    ])
}

/// The answer to a take that found a move.
#[tactic(auto, using(crate::proofs::Ascii::move_is_utf8))]
pub fn moved<T: TextRoom>(room: &mut T, place: u16, m: Move) -> bool
    ensures put { T.puts room.old (moved_text place m) result room.new }
    ensures short { length (moved_text place m) ≤ 256 }
{
    // Hence its text is ASCII.
    prove!(m.code() < 20480);
    let bytes = move_bytes(m);
    let spelt = str::from_utf8(bytes.as_slice()).unwrap();
    let mut buffer = Buffer::new();
    let place = buffer.format(place);
    room.put(&[
        "{\"move\":\"",
        spelt,
        "\",\"place\":",
        place,
        ",\"reply\":\"move\"}",
    ])
}

/// The answer to an accepted take.
pub fn taken<T: TextRoom>(room: &mut T, taken: Taken) -> bool
    ensures put { T.puts room.old (taken_text taken) result room.new }
    ensures short { length (taken_text taken) ≤ 256 }
{
    match taken {
        Taken::Move(place, m) => moved(room, place, m),
        Taken::Nothing => alone(room, "nothing"),
        Taken::Over(outcome) => with_outcome(room, outcome, "over"),
        Taken::Cut => alone(room, "cut"),
    }
}

/// The text of a truth value.
fn flag(value: bool) -> &'static str
    ensures value { result.now ≡ flag_text value }
    ensures short { length result.now ≤ 5 }
{
    if value { "true" } else { "false" }
}

/// The answer to an accepted Leave.
pub fn left<T: TextRoom>(room: &mut T, account: Account) -> bool
    ensures put { T.puts room.old (left_text account) result room.new }
    ensures short { length (left_text account) ≤ 256 }
{
    let mut joined_buffer = Buffer::new();
    let mut limit_buffer = Buffer::new();
    let mut taken_buffer = Buffer::new();
    room.put(&[
        "{\"cut\":",
        flag(account.cut),
        ",\"joined\":",
        joined_buffer.format(account.joined),
        ",\"limit\":",
        limit_buffer.format(account.limit),
        ",\"reply\":\"left\",\"taken\":",
        taken_buffer.format(account.taken),
        "}",
    ])
}

/// The answer to what is refused, or to a text that is not a command.
pub fn refused<T: TextRoom>(room: &mut T, code: u64, name: &str) -> bool
    ensures put { T.puts room.old (refused_text code name.now) result room.new }
    ensures short { length (refused_text code name.now) ≤ 128 + length name.now }
{
    let mut buffer = Buffer::new();
    let code = buffer.format(code);
    room.put(&[
        "{\"code\":",
        code,
        ",\"name\":\"",
        name,
        "\",\"reply\":\"refused\"}",
    ])
}
