//! What the watch port sends about a board, and its text.

ghost use Rattle.std.specs.Prelude.{◌≡◌, string_bytes, IfOk};
ghost use Rattle.relay_messages.specs.Answers.{board_text};

use c960_board::{Move, Position, move_bytes, write_fen};
use c960_game::Outcome;
use relay_core::BoardName;
use std::alloc::{AllocError, Global};
use std::{fmt, str};

/// The present state of a board.
#[derive(Clone, Copy, PartialEq, Eq, Debug)]
pub struct BoardSummary {
    /// Its name.
    pub board: BoardName,
    /// The number of the start with which it was opened.
    pub start: u16,
    /// The present position.
    pub position: Position,
    /// The last move, once there is one.
    pub last: Option<Move>,
    /// How many moves the log has, counting those of both sides.
    pub plies: u16,
    /// How the game ended, once it has.
    pub outcome: Option<Outcome>,
}

/// The last move in quotation marks, or `null`.
#[derive(Clone, Copy)]
struct LastMove(Option<Move>);

impl fmt::Display for LastMove {
    ghost use Rattle.std.specs.Prelude.{Some, option_map};
    ghost use Rattle.c960_board.specs.MoveTexts.{move_text};
    ghost use Rattle.relay_messages.specs.Answers.{text_or_null};

    ghost output = { λ last. Some (text_or_null (option_map move_text last.0)) };

    #[tactic(auto, using(crate::proofs::Ascii::move_is_utf8))]
    fn fmt<W: fmt::Write>(&self, f: &mut fmt::Formatter<W>) -> fmt::Result {
        let Some(m) = self.0 else {
            return f.write_str("null");
        };
        // Hence its text is ASCII.
        prove!(m.code() < 20480);
        let bytes = move_bytes(m);
        let spelt = str::from_utf8(bytes.as_slice()).unwrap();
        write!(f, "\"{spelt}\"")
    }
}

/// The outcome in quotation marks, or `null`.
#[derive(Clone, Copy)]
struct End(Option<Outcome>);

impl fmt::Display for End {
    ghost use Rattle.std.specs.Prelude.{Some, option_map};
    ghost use Rattle.c960_game.specs.Outcome.{outcome_text};
    ghost use Rattle.relay_messages.specs.Answers.{text_or_null};

    ghost output = { λ end. Some (text_or_null (option_map outcome_text end.0)) };

    fn fmt<W: fmt::Write>(&self, f: &mut fmt::Formatter<W>) -> fmt::Result {
        match self.0 {
            Some(outcome) => write!(f, "\"{}\"", outcome.text()),
            None => f.write_str("null"),
        }
    }
}

/// The text about a board: one compact JSON object (RFC 8259) without white space, its keys in the order of their bytes.
///
/// # Errors
///
/// There was no memory for the text.
#[tactic(auto, using(crate::proofs::Ascii::fen_is_utf8))]
pub fn encode_board(alloc: Global, summary: &BoardSummary) -> Result<String, AllocError>
    ensures { IfOk result (λ text. string_bytes text ≡ board_text summary.now) }
{
    let BoardSummary {
        board,
        start,
        position,
        last,
        plies,
        outcome,
    } = *summary;
    // Hence its text is ASCII.
    prove!(position.parts().number >= 1);
    let bytes = write_fen(&position);
    let fen = str::from_utf8(bytes.as_slice()).unwrap();
    let last = LastMove(last);
    let end = End(outcome);
    format!(in alloc;
        "{{\"board\":\"{board}\",\"fen\":\"{fen}\",\"last\":{last},\"outcome\":{end},\"plies\":{plies},\"reply\":\"board\",\"start\":{start}}}"
    )
}
