//! What a server does for a board besides its sockets: an operator's frames come in pieces and are answered, a hundred followers are pushed
//! each move, and two hundred more watch the board's tape, which they join at each place and read in pieces.

use crate::chance::Chance;
use crate::digest::Digest;
use crate::frames::push_text;
use crate::hall::{Hall, Seat, Wire};
use crate::lines::{FORMS, Lines};
use crate::walk::{start, step};
use c960_board::Move;
use c960_game::Limits;
use relay_frames::{Event, Peer, outgoing};
use relay_messages::Decoder;
use relay_pushing::{Conn, LastText, PushEnd, Turn, push_some};
use relay_watching::{SpectatorConnection, Tape};
use std::alloc::{AllocError, Global};

/// How many followers are pushed to.
const FOLLOWERS: u16 = 100;

/// How many plies are played.
const PLIES: u16 = 80;

/// How many spectators of the tape come in each ply.
const COMING: u16 = 3;

/// An operator's connection, and the board that it opened.
#[derive(Drop)]
struct Operator {
    alloc: Global,
    peer: Peer,
    conn: Conn,
    hall: Hall,
    wire: Wire,
}

/// Answers what the peer has sent. One decoder reads the texts of all connections.
fn answer_all(decoder: &mut Decoder, operator: &mut Operator) -> Result<(), AllocError> {
    for _ in 0..u64::MAX {
        let Some(event) = operator.peer.next()? else {
            break;
        };
        if let Some(frame) = event.answer(operator.alloc)? {
            operator.wire.bytes.extend_from_slice(frame.as_slice())?;
        }
        if let Event::Text(text) = &event {
            let answer = operator
                .conn
                .answer_with(decoder, text.as_bytes(), &mut operator.hall)?;
            outgoing::text(answer.as_str(), &mut operator.wire.bytes)?;
        }
    }
    Ok(())
}

/// The operator sends a line, which comes in pieces.
fn send(
    chance: &mut Chance,
    decoder: &mut Decoder,
    operator: &mut Operator,
    line: &[u8],
) -> Result<(), AllocError> {
    let mut frame = Vec::new(operator.alloc);
    push_text(chance, &mut frame, line)?;
    let size = chance.below(80).saturating_add(1);
    for piece in frame.as_slice().chunks(size) {
        operator.peer.feed(piece)?;
        answer_all(decoder, operator)?;
    }
    Ok(())
}

/// The spectators of a board: those that are pushed to, and those that watch its tape.
#[derive(Drop)]
struct Crowd {
    seats: Vec<Seat>,
    last: LastText,
    wire: Wire,
    tape: Tape,
    spectators: Vec<SpectatorConnection>,
}

/// A crowd at the operator's board.
fn gather(alloc: Global, operator: &mut Operator) -> Result<Crowd, AllocError> {
    let mut crowd = Crowd {
        seats: Vec::new(alloc),
        last: LastText::new(alloc),
        wire: Wire {
            bytes: Vec::new(alloc),
        },
        tape: Tape::new(alloc),
        spectators: Vec::new(alloc),
    };
    for _ in 0..FOLLOWERS {
        if let Some(board) = &mut operator.hall.board {
            if let Ok(follower) = board.follow(None) {
                crowd.seats.push(Seat { follower })?;
            }
        }
    }
    Ok(crowd)
}

/// A number for how a turn ended.
fn number_of(turn: Turn) -> u64 {
    match turn {
        Turn::Waits => 1,
        Turn::IsFull => 2,
        Turn::Ended(PushEnd::Over(outcome)) => 4 + 8 * (outcome.code() % 256),
        Turn::Ended(PushEnd::Cut) => 3,
        Turn::Ended(PushEnd::Failed(fault)) => 5 + 8 * (fault.code() % 256),
    }
}

/// Pushes to each follower, and adds what it was sent.
fn push(digest: &mut Digest, crowd: &mut Crowd) {
    for seat in &mut crowd.seats {
        digest.add(number_of(push_some(&mut crowd.last, &mut crowd.wire, seat)));
    }
    digest.add_bytes(crowd.wire.bytes.as_slice());
    crowd.wire.bytes.clear();
}

/// A few more spectators join the tape, at places that it has.
fn join(chance: &mut Chance, crowd: &mut Crowd, operator: &Operator) -> Result<(), AllocError> {
    for _ in 0..COMING {
        if let Some(board) = &operator.hall.board {
            let place = chance.small(board.len());
            if let Some(position) = board.position_at(place) {
                if usize::from(place) <= crowd.tape.len() {
                    let spectator = crowd.tape.join(place, &position)?;
                    crowd.spectators.push(spectator)?;
                }
            }
        }
    }
    Ok(())
}

/// Writes what is due to each spectator of the tape, in pieces of at most this many bytes.
fn write(digest: &mut Digest, tape: &Tape, spectators: &mut Vec<SpectatorConnection>, most: usize) {
    for spectator in spectators {
        for _ in 0..u64::MAX {
            let piece = spectator.due(tape);
            let size = piece.len().min(most);
            if size == 0 {
                break;
            }
            digest.add_bytes(piece.get(..size).unwrap_or(&[]));
            spectator.wrote(tape, size);
        }
        digest.add(u64::from(spectator.is_between_frames(tape)));
    }
}

/// The operator plays a move, and everybody is told.
fn ply(
    chance: &mut Chance,
    digest: &mut Digest,
    decoder: &mut Decoder,
    operator: &mut Operator,
    crowd: &mut Crowd,
    m: Move,
) -> Result<(), AllocError> {
    let mut lines = Lines::new(operator.alloc);
    lines.submit(chance.below(FORMS), 1, m)?;
    send(chance, decoder, operator, lines.as_slice())?;
    push(digest, crowd);
    if !crowd.tape.is_over() && crowd.tape.len() < 65536 {
        crowd.tape.push(m)?;
    }
    join(chance, crowd, operator)?;
    write(
        digest,
        &crowd.tape,
        &mut crowd.spectators,
        chance.below(1000).saturating_add(1),
    );
    Ok(())
}

/// An operator that has said nothing yet.
fn newcomer(alloc: Global, limits: Limits) -> Operator {
    Operator {
        alloc,
        peer: Peer::new(alloc),
        conn: Conn::new(alloc),
        hall: Hall {
            alloc,
            limits,
            board: None,
        },
        wire: Wire {
            bytes: Vec::new(alloc),
        },
    }
}

/// A game, from its opening to an agreed draw.
fn game(
    alloc: Global,
    chance: &mut Chance,
    digest: &mut Digest,
    decoder: &mut Decoder,
    limits: Limits,
) -> Result<(), AllocError> {
    let number = chance.small(960);
    let Some(mut lawful) = start(number) else {
        return Ok(());
    };
    let mut operator = newcomer(alloc, limits);
    let mut lines = Lines::new(alloc);
    lines.open(1, number)?;
    send(chance, decoder, &mut operator, lines.as_slice())?;
    let mut crowd = gather(alloc, &mut operator)?;
    for _ in 0..PLIES {
        let Some((m, next)) = step(alloc, chance, &lawful, false)? else {
            break;
        };
        ply(chance, digest, decoder, &mut operator, &mut crowd, m)?;
        lawful = next;
    }
    let mut lines = Lines::new(alloc);
    lines.agree(1)?;
    send(chance, decoder, &mut operator, lines.as_slice())?;
    push(digest, &mut crowd);
    digest.add_bytes(operator.wire.bytes.as_slice());
    Ok(())
}

/// Plays this many games.
pub fn run(
    alloc: Global,
    chance: &mut Chance,
    digest: &mut Digest,
    games: u16,
) -> Result<(), AllocError> {
    let Some(limits) = Limits::new(1, FOLLOWERS, 64, 1024) else {
        return Ok(());
    };
    let mut decoder = Decoder::new(alloc);
    for _ in 0..games {
        game(alloc, chance, digest, &mut decoder, limits)?;
    }
    Ok(())
}
