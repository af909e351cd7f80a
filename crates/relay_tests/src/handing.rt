//! A small example of a caller over live boards: a game is played by steps of a relay, and its board is handed out.

ghost use Rattle.std.specs.Prelude.{◌≡◌, [], length, IfOk};
ghost use Rattle.relay_core.specs.History.{lived};
ghost use Rattle.relay_core.specs.Replies.{LawfulHistory};
ghost use Rattle.relay_tests.specs.Handing.{HandedOut};

use c960_game::Limits;
use relay_core::{BoardName, Reply, Step};
use relay_live::{Board, LiveRelay};
use std::alloc::{AllocError, Global};

/// Makes these steps on a new relay, and hands out the board of that name as they left it, with the replies to the steps. None
/// exactly if no Open of that name was accepted. Otherwise the log is the moves that were accepted for it, in order: a legal game from the
/// start that the Open named, with that game's end.
pub fn play_and_hand_out(
    alloc: Global,
    limits: Limits,
    steps: &[Step],
    board: &BoardName,
) -> Result<(Vec<Reply>, Option<Board>), AllocError>
    ensures all { IfOk result (λ r. length r.0.items ≡ length steps.now) }
    ensures lawful { IfOk result (λ r. LawfulHistory limits (lived [] steps.now r.0.items)) }
    ensures handed { IfOk result (λ r. HandedOut (lived [] steps.now r.0.items) board.now r.1) }
{
    let mut relay = LiveRelay::new(alloc, limits)?;
    let replies = relay.run(steps)?;
    Ok((replies, relay.into_board(board)))
}
