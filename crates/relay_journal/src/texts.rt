//! The commands of entries, as texts. The keys of an object are in the order of their bytes.

ghost use Rattle.std.specs.Prelude.{◌≡◌, IfOk, Ok, string_bytes};
ghost use Rattle.serde_json.specs.View.{view};
ghost use Rattle.relay_core.specs.declared.step.Step.TheVariants.{Open, Submit, End};
ghost use Rattle.relay_messages.specs.Decoding.{decoded};
ghost use Rattle.relay_journal.specs.Kept.{step_of};
ghost use Rattle.relay_journal.specs.Texts.{alone_data, decided_data, end_data, open_data, result_text, side_text, sided_data, submit_data};

use crate::entry::Entry;
use c960_board::laws::moves::written_text_is_of_the_move;
use c960_board::{Colour, Move, move_bytes};
use c960_game::{Ending, Result as GameResult};
use relay_core::BoardName;
use relay_messages::MOST_BYTES;
use serde_json::{Value, json};
use std::alloc::{AllocError, Global};
use std::str;

fn open_value(alloc: Global, board: &str, start: u16) -> Result<Value, AllocError>
    ensures { IfOk result (λ v. view v ≡ open_data board.now start) }
{
    json!(in alloc; {"board": board, "cmd": "open", "start": start})
}

fn submit_value(alloc: Global, board: &str, m: Move) -> Result<Value, AllocError>
    ensures { IfOk result (λ v. view v ≡ submit_data board.now m) }
{
    let bytes = move_bytes(m);
    // It is ASCII.
    let Ok(spelt) = str::from_utf8(bytes.as_slice()) else {
        return Err(AllocError);
    };
    json!(in alloc; {"board": board, "cmd": "submit", "move": spelt})
}

fn side_of(side: Colour) -> &'static str
    ensures { result.now ≡ side_text side }
{
    match side {
        Colour::White => "white",
        Colour::Black => "black",
    }
}

fn alone_value(alloc: Global, board: &str, how: &str) -> Result<Value, AllocError>
    ensures { IfOk result (λ v. view v ≡ alone_data board.now how.now) }
{
    json!(in alloc; {"board": board, "cmd": "end", "how": how})
}

fn sided_value(alloc: Global, board: &str, how: &str, side: Colour) -> Result<Value, AllocError>
    ensures { IfOk result (λ v. view v ≡ sided_data board.now how.now side) }
{
    let side = side_of(side);
    json!(in alloc; {"board": board, "cmd": "end", "how": how, "side": side})
}

fn result_of(decided: GameResult) -> &'static str
    ensures { result.now ≡ result_text decided }
{
    match decided {
        GameResult::WhiteWins => "1-0",
        GameResult::BlackWins => "0-1",
        GameResult::Draw => "1/2-1/2",
    }
}

fn decided_value(alloc: Global, board: &str, decided: GameResult) -> Result<Value, AllocError>
    ensures { IfOk result (λ v. view v ≡ decided_data board.now decided) }
{
    let spelt = result_of(decided);
    json!(in alloc; {"board": board, "cmd": "end", "how": "decided", "result": spelt})
}

fn end_value(alloc: Global, board: &str, ending: Ending) -> Result<Value, AllocError>
    ensures { IfOk result (λ v. view v ≡ end_data board.now ending) }
{
    match ending {
        Ending::Resigns(side) => sided_value(alloc, board, "resign", side),
        Ending::ClaimThreefold(side) => sided_value(alloc, board, "threefold", side),
        Ending::ClaimFifty(side) => sided_value(alloc, board, "fifty", side),
        Ending::LosesOnTime(side) => sided_value(alloc, board, "time", side),
        Ending::Decided(decided) => decided_value(alloc, board, decided),
        Ending::Agreed => alone_value(alloc, board, "agreed"),
        Ending::Abandoned => alone_value(alloc, board, "abandoned"),
    }
}

/// The text of an open.
///
/// # Errors
///
/// There was no memory.
fn open_text(alloc: Global, board: BoardName, start: u16) -> Result<String, AllocError>
    ensures { IfOk result (λ text. decoded (string_bytes text) ≡ Ok (Open board start)) }
{
    let text = open_value(alloc, board.as_str(), start)?.to_string(alloc)?;
    if text.len() > MOST_BYTES {
        return Err(AllocError);
    }
    Ok(text)
}

/// The text of a move.
///
/// # Errors
///
/// There was no memory.
fn submit_text(alloc: Global, board: BoardName, m: Move) -> Result<String, AllocError>
    ensures { IfOk result (λ text. decoded (string_bytes text) ≡ Ok (Submit board m)) }
{
    let _ = m.code();
    written_text_is_of_the_move();
    let text = submit_value(alloc, board.as_str(), m)?.to_string(alloc)?;
    if text.len() > MOST_BYTES {
        return Err(AllocError);
    }
    Ok(text)
}

/// The text of an ending.
///
/// # Errors
///
/// There was no memory.
fn end_text(alloc: Global, board: BoardName, ending: Ending) -> Result<String, AllocError>
    ensures { IfOk result (λ text. decoded (string_bytes text) ≡ Ok (End board ending)) }
{
    let text = end_value(alloc, board.as_str(), ending)?.to_string(alloc)?;
    if text.len() > MOST_BYTES {
        return Err(AllocError);
    }
    Ok(text)
}

/// The command of an entry. It is read as the step that the entry keeps.
///
/// # Errors
///
/// There was no memory.
pub fn command_of(alloc: Global, entry: &Entry) -> Result<String, AllocError>
    ensures { IfOk result (λ text. decoded (string_bytes text) ≡ Ok (step_of entry.now)) }
{
    match *entry {
        Entry::Opens(board, start, _) => open_text(alloc, board, start),
        Entry::Plays(board, m) => submit_text(alloc, board, m),
        Entry::Ends(board, ending) => end_text(alloc, board, ending),
    }
}
