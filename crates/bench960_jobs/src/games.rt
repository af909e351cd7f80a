//! Games over lines, as an importer or an arbiter's program plays them: each line is a move, and its answer the position after it. One line
//! in fifty is refused. In one game of four the pieces are shuffled, so that each position is compared with up to 150 others.

use crate::chance::Chance;
use crate::digest::Digest;
use crate::walk::{start, step};
use c960_board::move_bytes;
use relay960_engines::{ScriptLimits, default_limits, play_run};
use std::alloc::{AllocError, Global};

/// Lines that are no legal move in any game: the first is a text of none, in the second the square that is left is the goal.
const REFUSED: [&[u8]; 2] = [b"e9e4\n", b"a1a1\n"];

/// Appends a line that is refused.
fn push_refused(chance: &mut Chance, text: &mut Vec<u8>) -> Result<(), AllocError> {
    match REFUSED.get(chance.below(2)) {
        Some(line) => text.extend_from_slice(line),
        None => Ok(()),
    }
}

/// The lines of a random game. After this many plies its pieces are shuffled.
fn lines(
    alloc: Global,
    chance: &mut Chance,
    number: u16,
    plies: u16,
    until: u16,
) -> Result<Vec<u8>, AllocError> {
    let mut text = Vec::new(alloc);
    let Some(mut lawful) = start(number) else {
        return Ok(text);
    };
    for ply in 0..plies {
        if chance.once_in(50) {
            push_refused(chance, &mut text)?;
        }
        let Some((m, next)) = step(alloc, chance, &lawful, ply >= until)? else {
            break;
        };
        text.extend_from_slice(move_bytes(m).as_slice())?;
        text.push(b'\n')?;
        lawful = next;
    }
    Ok(text)
}

/// Plays a game over its lines.
fn play(alloc: Global, digest: &mut Digest, number: u16, text: &[u8]) {
    let mut reader = text;
    let mut output = Vec::new(alloc);
    let limits = ScriptLimits::greatest(default_limits());
    match play_run(alloc, number, &mut reader, &mut output, limits) {
        Ok(count) => digest.add(count),
        Err(fault) => digest.add_bytes(fault.name().as_bytes()),
    }
    digest.add_bytes(output.as_slice());
}

/// Plays this many games of 60 to 120 plies, and a third as many that are shuffled from the 20th ply on.
pub fn run(
    alloc: Global,
    chance: &mut Chance,
    digest: &mut Digest,
    games: u16,
) -> Result<(), AllocError> {
    for game in 0..games {
        let number = chance.small(960);
        let plies = chance.small(61).saturating_add(60);
        let text = lines(alloc, chance, number, plies, plies)?;
        play(alloc, digest, number, text.as_slice());
        if game % 3 == 0 {
            let number = chance.small(960);
            let text = lines(alloc, chance, number, 170, 20)?;
            play(alloc, digest, number, text.as_slice());
        }
    }
    Ok(())
}
