//! The same lists of steps over both kinds of relay: 16 boards with 64 spectators each, of whom half take each move, some now and then,
//! and some never, so that they are closed. Now and then one leaves, and follows again from a place well back.

use crate::chance::Chance;
use crate::digest::Digest;
use crate::walk::{start, step};
use c960_board::write_fen;
use c960_game::{Limits, Outcome};
use c960_rules::Lawful;
use relay_core::{BoardName, Relay, Reply, Spectator, Step, Taken};
use relay_live::LiveRelay;
use std::alloc::{AllocError, Global};

/// How many boards there are.
const BOARDS: u16 = 16;

/// How many spectators each has.
const SPECTATORS: u16 = 64;

/// How many plies are played on each.
const PLIES: u16 = 150;

/// A board, with its present position.
#[derive(Drop)]
struct Table {
    number: u16,
    name: BoardName,
    lawful: Lawful,
}

/// The number of a board's spectator.
fn spectator(table: &Table, place: u16) -> Spectator {
    u32::from(table.number) * 64 + u32::from(place)
}

/// Opens the boards, and lets their spectators follow.
fn open(
    alloc: Global,
    chance: &mut Chance,
    steps: &mut Vec<Step>,
) -> Result<Vec<Table>, AllocError> {
    let mut tables = Vec::new(alloc);
    for number in 0..BOARDS {
        let first = chance.small(960);
        if let (Some(name), Some(lawful)) = (BoardName::new(&[b'a' + number as u8]), start(first)) {
            let table = Table {
                number,
                name,
                lawful,
            };
            steps.push(Step::Open(name, first))?;
            for place in 0..SPECTATORS {
                steps.push(Step::Follow(spectator(&table, place), name, None))?;
            }
            tables.push(table)?;
        }
    }
    Ok(tables)
}

/// Whether the spectator at this place takes after this many plies: half of them each time, a quarter at every eighth ply.
fn takes(place: u16, plies: u16) -> bool {
    place < 32 || (place < 48 && plies % 8 == 7)
}

/// A spectator leaves, and follows again from 63 plies back, or from the beginning.
fn visit(
    chance: &mut Chance,
    steps: &mut Vec<Step>,
    table: &Table,
    plies: u16,
) -> Result<(), AllocError> {
    let who = spectator(table, chance.small(SPECTATORS));
    steps.push(Step::Leave(who))?;
    steps.push(Step::Follow(who, table.name, Some(plies.saturating_sub(63))))?;
    Ok(())
}

/// A move on a board, and what its spectators do.
fn turn(
    alloc: Global,
    chance: &mut Chance,
    steps: &mut Vec<Step>,
    table: &mut Table,
    plies: u16,
) -> Result<(), AllocError> {
    let Some((m, next)) = step(alloc, chance, &table.lawful, false)? else {
        return Ok(());
    };
    steps.push(Step::Submit(table.name, m))?;
    table.lawful = next;
    for place in 0..SPECTATORS {
        if takes(place, plies) {
            steps.push(Step::Take(spectator(table, place)))?;
        }
    }
    if chance.once_in(4) {
        visit(chance, steps, table, plies)?;
    }
    Ok(())
}

/// The steps of a random evening.
fn evening(alloc: Global, chance: &mut Chance) -> Result<Vec<Step>, AllocError> {
    let mut steps = Vec::new(alloc);
    let mut tables = open(alloc, chance, &mut steps)?;
    for plies in 0..PLIES {
        for table in &mut tables {
            turn(alloc, chance, &mut steps, table, plies)?;
        }
    }
    Ok(steps)
}

/// Adds the outcome of a game, if it has one.
fn add_outcome(digest: &mut Digest, outcome: Option<Outcome>) {
    digest.add(match outcome {
        Some(outcome) => outcome.code(),
        None => 0,
    });
}

/// Adds a reply.
fn add_reply(digest: &mut Digest, reply: &Reply) {
    match reply {
        Reply::Opened => digest.add(1),
        Reply::Played { place, outcome } => {
            digest.add(2 + 16 * u64::from(*place));
            add_outcome(digest, *outcome);
        }
        Reply::Ended(outcome) => digest.add(3 + 16 * (outcome.code() % 256)),
        Reply::Following { joined, position } => {
            digest.add(4 + 16 * u64::from(*joined));
            digest.add_bytes(write_fen(position).as_slice());
        }
        Reply::Took(Taken::Move(place, m)) => {
            digest.add(5 + 16 * (u64::from(*place) + 65536 * m.code()));
        }
        Reply::Took(Taken::Nothing) => digest.add(6),
        Reply::Took(Taken::Over(outcome)) => digest.add(7 + 16 * (outcome.code() % 256)),
        Reply::Took(Taken::Cut) => digest.add(8),
        Reply::Left(account) => {
            digest.add(9 + 16 * (u64::from(account.joined) + 65536 * u64::from(account.taken)));
            digest.add(u64::from(account.cut) + 2 * u64::from(account.limit));
        }
        Reply::Refused(refusal) => digest.add(10 + 16 * (refusal.code() % 256)),
    }
}

/// Makes the steps over both kinds of relay, and adds the replies.
fn run_steps(
    alloc: Global,
    digest: &mut Digest,
    limits: Limits,
    steps: &[Step],
) -> Result<(), AllocError> {
    let mut live = LiveRelay::new(alloc, limits)?;
    for reply in live.run(steps)?.iter() {
        add_reply(digest, reply);
    }
    let mut plain = Relay::new(alloc, limits)?;
    for reply in plain.run(steps)?.iter() {
        add_reply(digest, reply);
    }
    Ok(())
}

/// Runs this many evenings.
pub fn run(
    alloc: Global,
    chance: &mut Chance,
    digest: &mut Digest,
    evenings: u16,
) -> Result<(), AllocError> {
    let Some(limits) = Limits::new(BOARDS, SPECTATORS, 64, 1024) else {
        return Ok(());
    };
    for _ in 0..evenings {
        let steps = evening(alloc, chance)?;
        run_steps(alloc, digest, limits, steps.as_slice())?;
    }
    Ok(())
}
