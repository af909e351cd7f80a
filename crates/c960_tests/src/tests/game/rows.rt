//! Games as tables: what is done to a game and what is then seen of it, one row each.

use crate::tests::claims::claim_of;
use crate::tests::game::playing::{
    ends_by, goes_on, has_log, is_ended, is_ending_refused, is_move_refused, is_written, standard,
};
use c960_game::{Ending, Game, Outcome, Refusal};
use std::alloc::{AllocError, Global};
use std::process::Abort;

/// Twelve moves of knights, after which the position is as before.
const SHUFFLE: &str = "g1f3 g8f6 f3g1 f6g8 g1f3 g8f6 f3g1 f6g8 g1f3 g8f6 f3g1 f6g8";

/// What is done to a game, or seen of it. Moves and positions are given by their texts, the moves of a line separated by spaces.
#[derive(Clone, Copy)]
pub enum Row {
    /// Each move of the line is accepted, and the game goes on.
    Play(&'static str),
    /// The same of the shuffle, and then of the line, so that no position is repeated too often.
    Shuffle(&'static str),
    /// The move is accepted and ends the game with this outcome.
    Last(&'static str, Outcome),
    /// The ending is accepted, ends the game with this outcome, and changes nothing else.
    End(Ending, Outcome),
    /// The move is refused, and changes nothing.
    NoMove(&'static str, Refusal),
    /// The ending is refused, and changes nothing.
    NoEnd(Ending, Refusal),
    /// The present position is written so.
    Text(&'static str),
    /// The log has the moves of the line, and none beyond.
    Log(&'static str),
    /// The log has that many moves.
    Len(u16),
    /// The present position has appeared that many times.
    Appearances(u16),
    /// The half-move counter of the present position.
    HalfMoves(u16),
}

/// Makes the moves of a line: each is accepted, and the game goes on.
pub fn play_on(rt: &impl Abort, game: &mut Game, moves: &str) {
    for text in moves.split(' ') {
        claim_of(rt, goes_on(game, text), "the move", text);
    }
}

/// Makes the moves of several lines.
pub fn play_lines(rt: &impl Abort, game: &mut Game, lines: &[&str]) {
    for line in lines {
        play_on(rt, game, line);
    }
}

/// What a row is about.
fn words_of(row: Row) -> &'static str {
    match row {
        Row::Play(text)
        | Row::Shuffle(text)
        | Row::Last(text, _)
        | Row::NoMove(text, _)
        | Row::Text(text)
        | Row::Log(text) => text,
        Row::End(ending, _) | Row::NoEnd(ending, _) => ending.outcome().text(),
        Row::Len(_) => "the number of moves",
        Row::Appearances(_) => "the number of appearances",
        Row::HalfMoves(_) => "the half-move counter",
    }
}

/// Whether a row holds of a game. Each move of a line is asserted by itself.
fn is_so(rt: &impl Abort, game: &mut Game, row: Row) -> bool {
    match row {
        Row::Play(moves) => {
            play_on(rt, game, moves);
            true
        }
        Row::Shuffle(moves) => {
            play_on(rt, game, SHUFFLE);
            play_on(rt, game, moves);
            true
        }
        Row::Last(text, outcome) => ends_by(game, text, outcome),
        Row::End(ending, outcome) => is_ended(game, ending, outcome),
        Row::NoMove(text, refusal) => is_move_refused(game, text, refusal),
        Row::NoEnd(ending, refusal) => is_ending_refused(game, ending, refusal),
        Row::Text(text) => is_written(game, text),
        Row::Log(moves) => has_log(game, moves),
        Row::Len(moves) => game.len() == moves,
        Row::Appearances(times) => game.appearances() == times,
        Row::HalfMoves(number) => game.position().half_moves() == number,
    }
}

/// Asserts that a row holds, which has this number and these words.
fn claim_row(rt: &impl Abort, holds: bool, number: u64, words: &str) {
    assert!(rt; holds, "row {number}: {words}");
}

/// Asserts that each row holds of a game, in turn.
pub fn assert_rows(rt: &impl Abort, game: &mut Game, rows: &[Row]) {
    for (row, number) in rows.iter().zip(0..) {
        let holds = is_so(rt, game, *row);
        claim_row(rt, holds, number, words_of(*row));
    }
}

/// Asserts that each row holds of a new game from the standard array whose log may have that many moves.
pub fn assert_game(
    rt: &impl Abort,
    alloc: Global,
    plies: u16,
    rows: &[Row],
) -> Result<(), AllocError> {
    let mut game = standard(rt, alloc, plies)?;
    assert_rows(rt, &mut game, rows);
    Ok(())
}
