//! A round's boards over a script, as a site replays them: JSON lines in, lines out. The boards play by turns, each with up to three
//! spectators who take each move; spectators come and go, and some lines are refused.

use crate::chance::Chance;
use crate::digest::Digest;
use crate::lines::{FORMS, Lines, REFUSALS};
use crate::walk::{start, step};
use c960_game::Limits;
use c960_rules::Lawful;
use relay960_engines::{ScriptLimits, script_run};
use std::alloc::{AllocError, Global};

/// How many plies each board plays.
const PLIES: u16 = 80;

/// A board of a round.
#[derive(Drop)]
struct Table {
    number: u16,
    /// How many spectators follow it.
    spectators: u32,
    lawful: Lawful,
    is_over: bool,
}

/// The number of a board's spectator: each board has its own four.
fn spectator(table: &Table, place: u32) -> u32 {
    (u32::from(table.number) * 4).wrapping_add(place)
}

/// A form of a move: the first one in 13 of 16 cases.
fn form(chance: &mut Chance) -> usize {
    if chance.below(16) < 13 {
        0
    } else {
        chance.below(FORMS)
    }
}

/// Opens the boards, and lets their spectators follow.
fn open(
    alloc: Global,
    chance: &mut Chance,
    lines: &mut Lines,
    boards: u16,
) -> Result<Vec<Table>, AllocError> {
    let mut tables = Vec::new(alloc);
    for number in 0..boards {
        let first = chance.small(960);
        if let Some(lawful) = start(first) {
            lines.open(number, first)?;
            let table = Table {
                number,
                spectators: u32::from(number % 4),
                lawful,
                is_over: false,
            };
            for place in 0..table.spectators {
                lines.follow(spectator(&table, place), number, None)?;
            }
            tables.push(table)?;
        }
    }
    Ok(tables)
}

/// One of a board's spectators leaves and follows again, from a place a few plies back or from now on.
fn visit(
    chance: &mut Chance,
    lines: &mut Lines,
    table: &Table,
    plies: u16,
) -> Result<(), AllocError> {
    if table.spectators == 0 {
        return Ok(());
    }
    let from = if chance.once_in(2) {
        Some(plies.saturating_sub(chance.small(20)))
    } else {
        None
    };
    lines.leave(spectator(table, 0))?;
    lines.follow(spectator(table, 0), table.number, from)
}

/// Plays a move on a board, and lets its spectators take it.
fn play(
    alloc: Global,
    chance: &mut Chance,
    lines: &mut Lines,
    table: &mut Table,
) -> Result<(), AllocError> {
    let Some((m, next)) = step(alloc, chance, &table.lawful, false)? else {
        table.is_over = true;
        return Ok(());
    };
    lines.submit(form(chance), table.number, m)?;
    table.lawful = next;
    for place in 0..table.spectators {
        lines.take(spectator(table, place))?;
    }
    Ok(())
}

/// A board's turn.
fn turn(
    alloc: Global,
    chance: &mut Chance,
    lines: &mut Lines,
    table: &mut Table,
    plies: u16,
) -> Result<(), AllocError> {
    if chance.once_in(50) {
        lines.refused(chance.below(REFUSALS))?;
    }
    if chance.once_in(40) {
        visit(chance, lines, table, plies)?;
    }
    if chance.once_in(400) {
        lines.agree(table.number)?;
        table.is_over = true;
    }
    if table.is_over {
        return Ok(());
    }
    play(alloc, chance, lines, table)
}

/// The script of a round.
fn script(alloc: Global, chance: &mut Chance, boards: u16) -> Result<Lines, AllocError> {
    let mut lines = Lines::new(alloc);
    let mut tables = open(alloc, chance, &mut lines, boards)?;
    for plies in 0..PLIES {
        for table in &mut tables {
            turn(alloc, chance, &mut lines, table, plies)?;
        }
    }
    Ok(lines)
}

/// Runs a script, and adds what it writes.
pub fn run_script(alloc: Global, digest: &mut Digest, limits: Limits, lines: &Lines) {
    let mut reader = lines.as_slice();
    let mut output = Vec::new(alloc);
    let limits = ScriptLimits::greatest(limits);
    match script_run(alloc, &mut reader, &mut output, limits) {
        Ok(count) => digest.add(count),
        Err(fault) => digest.add_bytes(fault.name().as_bytes()),
    }
    digest.add_bytes(output.as_slice());
}

/// Runs the scripts of this many rounds, of 50 to 250 boards each.
pub fn run(
    alloc: Global,
    chance: &mut Chance,
    digest: &mut Digest,
    rounds: u16,
) -> Result<(), AllocError> {
    for _ in 0..rounds {
        let boards = chance.small(201).saturating_add(50);
        let lines = script(alloc, chance, boards)?;
        if let Some(limits) = Limits::new(boards, 64, 64, 1024) {
            run_script(alloc, digest, limits, &lines);
        }
    }
    Ok(())
}
