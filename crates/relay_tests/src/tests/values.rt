//! Texts that several cases use, and values made from texts and numbers.

use c960_board::{Colour, Move, Position, read_fen, read_move};
use c960_game::Outcome;
use relay_core::{Account, BoardName};
use std::process::Abort;

/// The position of start 518.
pub const START_518: &str = "rnbqkbnr/pppppppp/8/8/8/8/PPPPPPPP/RNBQKBNR w HAha - 0 1";

/// The position of start 0.
pub const START_0: &str = "bbqnnrkr/pppppppp/8/8/8/8/PPPPPPPP/BBQNNRKR w HFhf - 0 1";

/// The position of start 518 after e2e4.
pub const ONE_PLY: &str = "rnbqkbnr/pppppppp/8/8/4P3/8/PPPP1PPP/RNBQKBNR b HAha e3 0 1";

/// After e2e4 e7e5.
pub const TWO_PLIES: &str = "rnbqkbnr/pppp1ppp/8/4p3/4P3/8/PPPP1PPP/RNBQKBNR w HAha e6 0 2";

/// After e2e4 e7e5 g1f3.
pub const THREE_PLIES: &str = "rnbqkbnr/pppp1ppp/8/4p3/4P3/5N2/PPPP1PPP/RNBQKB1R b HAha - 1 2";

/// After e2e4 e7e5 g1f3 b8c6.
pub const FOUR_PLIES: &str = "r1bqkbnr/pppp1ppp/2n5/4p3/4P3/5N2/PPPP1PPP/RNBQKB1R w HAha - 2 3";

/// After f2f3 e7e5 g2g4 d8h4, which mates.
pub const MATED: &str = "rnb1kbnr/pppp1ppp/8/4p3/6Pq/5P2/PPPPP2P/RNBQKBNR w HAha - 1 3";

/// Twelve moves of knights, after which the position is the one before.
pub const SHUFFLE: &str = "g1f3 g8f6 f3g1 f6g8 g1f3 g8f6 f3g1 f6g8 g1f3 g8f6 f3g1 f6g8";

/// The first 98 moves of a game from start 518 without a pawn's move or a capture. After g1f3 g8f6 White may claim a draw.
pub const NINETY_EIGHT: &str = "\
    g1f3 g8f6 f3g1 f6g8 g1f3 g8f6 f3g1 f6g8 g1f3 g8f6 f3g1 f6g8 b1c3 b8c6 \
    g1f3 g8f6 f3g1 f6g8 g1f3 g8f6 f3g1 f6g8 g1f3 g8f6 f3g1 f6g8 a1b1 a8b8 \
    g1f3 g8f6 f3g1 f6g8 g1f3 g8f6 f3g1 f6g8 g1f3 g8f6 f3g1 f6g8 b1a1 b8a8 \
    g1f3 g8f6 f3g1 f6g8 g1f3 g8f6 f3g1 f6g8 g1f3 g8f6 f3g1 f6g8 c3b1 c6b8 \
    g1f3 g8f6 f3g1 f6g8 g1f3 g8f6 f3g1 f6g8 g1f3 g8f6 f3g1 f6g8 b1a3 b8a6 \
    g1f3 g8f6 f3g1 f6g8 g1f3 g8f6 f3g1 f6g8 g1f3 g8f6 f3g1 f6g8 a1b1 a8b8 \
    g1f3 g8f6 f3g1 f6g8 g1f3 g8f6 f3g1 f6g8 g1f3 g8f6 f3g1 f6g8 a3c4 a6c5";

/// How the game ends in which Black mates.
pub const BLACK_MATES: Outcome = Outcome::Checkmate(Colour::Black);

/// The board of a name. Where it is none, the test ends with the text; so do the two below.
pub fn board_of(rt: &impl Abort, text: &str) -> BoardName {
    BoardName::new(text.as_bytes()).expect(rt, text)
}

/// The move of a text.
pub fn move_of(rt: &impl Abort, text: &str) -> Move {
    read_move(text.as_bytes()).expect(rt, text)
}

/// The position of a text.
pub fn position_of(rt: &impl Abort, text: &str) -> Position {
    read_fen(text.as_bytes()).expect(rt, text)
}

/// The account of a follower: the place at which it joined, how many it took, its limit, and whether it was closed.
pub fn account(joined: u16, taken: u16, limit: u16, cut: bool) -> Account {
    Account {
        joined,
        taken,
        limit,
        cut,
    }
}
