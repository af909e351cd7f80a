//! What a connection says, drawn by chance, as bytes.

use crate::tests::chance::{Dice, text_at};
use crate::tests::parts::{behind, front};
use crate::tests::sessions::frames::{
    BINARY, CLOSE, FIRST_PART, LAST_PART, NORMAL, PING, PONG, TEXT, add_frame,
};
use crate::tests::sessions::rows::Frame;
use relay_core::BoardName;
use relay_hall::Hall;
use std::alloc::{AllocError, Global};
use std::process::Abort;

/// The names of boards: more than there may be boards.
static NAMES: [&str; 8] = ["b0", "b1", "b2", "b3", "b4", "b5", "b6", "b7"];

/// A cycle of moves. They, the endings and the places are what stands behind the name of a board.
static MOVES: [&str; 4] = [
    "\",\"move\":\"g1f3\"}",
    "\",\"move\":\"g8f6\"}",
    "\",\"move\":\"f3g1\"}",
    "\",\"move\":\"f6g8\"}",
];

static ENDINGS: [&str; 4] = [
    "\",\"how\":\"agreed\"}",
    "\",\"how\":\"resign\",\"side\":\"black\"}",
    "\",\"how\":\"fifty\",\"side\":\"white\"}",
    "\",\"how\":\"threefold\",\"side\":\"white\"}",
];

static FROM: [&str; 6] = [
    "\",\"spectator\":1}",
    "\",\"spectator\":1,\"from\":0}",
    "\",\"spectator\":1,\"from\":1}",
    "\",\"spectator\":1,\"from\":2}",
    "\",\"spectator\":1,\"from\":4}",
    "\",\"spectator\":1,\"from\":7}",
];

/// What is no command, or none that a connection may make.
static OTHERS: [&str; 6] = [
    "{\"cmd\":\"take\",\"spectator\":1}",
    "{\"cmd\":\"leave\",\"spectator\":1}",
    "{\"cmd\":\"stop\"}",
    "{\"cmd\":\"open\",\"board\":\"b 1\",\"start\":518}",
    "[]",
    "{\"cmd\":",
];

/// The kinds of what may be said, among 24: the first that opens a board, and the first that follows one.
const OPENS: u32 = 0;

const FOLLOWS: u32 = 19;

/// A text that is too long.
const TOO_LONG: [u8; 1025] = [b' '; 1025];

/// What is no text that may be a command.
static OTHER_FRAMES: [Frame; 4] = [
    (PING, b"here"),
    (PONG, b""),
    (BINARY, b"[]"),
    (TEXT, &TOO_LONG),
];

/// The pieces of a text: what stands before the name of a board, the name, and what stands behind it.
type Pieces = [&'static str; 3];

fn names() -> &'static [&'static str] {
    &NAMES
}

fn moves() -> &'static [&'static str] {
    &MOVES
}

fn endings() -> &'static [&'static str] {
    &ENDINGS
}

fn places() -> &'static [&'static str] {
    &FROM
}

fn others() -> &'static [&'static str] {
    &OTHERS
}

fn other_frames() -> &'static [Frame] {
    &OTHER_FRAMES
}

/// Whether the game of the board of this name goes on.
fn is_live(hall: &Hall, name: &str) -> bool {
    let Some(name) = BoardName::new(name.as_bytes()) else {
        return false;
    };
    let Some(at) = hall.place_of(&name) else {
        return false;
    };
    match hall.board(at) {
        Some(board) => board.outcome().is_none(),
        None => false,
    }
}

/// What a board that is opened starts from: one time in eight from what there is not.
fn start(dice: &mut Dice) -> &'static str {
    if dice.below(8) == 7 {
        "\",\"start\":960}"
    } else {
        "\",\"start\":518}"
    }
}

/// A follow of this board. Of one whose game goes on it would not end by itself: then it is a command that nobody may make.
fn follow(dice: &mut Dice, hall: &Hall, name: &'static str) -> Pieces {
    let from = dice.any(places());
    if is_live(hall, name) {
        return ["{\"cmd\":\"take\",\"spectator\":1}", "", ""];
    }
    ["{\"cmd\":\"follow\",\"board\":\"", name, from]
}

/// Somebody who speaks, mostly of one board: an operator, who opens it first, or a guest, who mostly asks to follow.
#[derive(Clone, Copy)]
pub struct Speaker {
    board: &'static str,
    is_guest: bool,
    has_spoken: bool,
    /// How many moves of the cycle it has made.
    plies: usize,
}

impl Speaker {
    pub fn new(dice: &mut Dice) -> Speaker {
        Speaker {
            board: dice.any(names()),
            is_guest: dice.below(3) == 0,
            has_spoken: false,
            plies: 0,
        }
    }

    /// The board of which it speaks next.
    fn name(&self, dice: &mut Dice) -> &'static str {
        match dice.below(6) {
            0 => dice.any(names()),
            _ => self.board,
        }
    }

    /// What it says next is of this kind.
    fn kind(&mut self, dice: &mut Dice) -> u32 {
        let kind = dice.below(24);
        let is_first = !self.has_spoken;
        self.has_spoken = true;
        match (self.is_guest, is_first) {
            (true, _) if kind < 12 => FOLLOWS,
            (false, true) => OPENS,
            _ => kind,
        }
    }

    /// Its next move: mostly the next one of the cycle.
    fn played(&mut self, dice: &mut Dice) -> &'static str {
        if dice.below(8) == 0 {
            return dice.any(moves());
        }
        let next = text_at(moves(), self.plies % 4);
        self.plies = self.plies.wrapping_add(1);
        next
    }
}

/// A text that is a command, or nearly one.
fn pieces(dice: &mut Dice, hall: &Hall, speaker: &mut Speaker) -> Pieces {
    let name = speaker.name(dice);
    match speaker.kind(dice) {
        OPENS..=5 => ["{\"cmd\":\"open\",\"board\":\"", name, start(dice)],
        6..=16 => {
            let played = speaker.played(dice);
            ["{\"cmd\":\"submit\",\"board\":\"", name, played]
        }
        17..=18 => {
            let how = dice.any(endings());
            ["{\"cmd\":\"end\",\"board\":\"", name, how]
        }
        FOLLOWS..=20 => follow(dice, hall, name),
        _ => [dice.any(others()), "", ""],
    }
}

/// These pieces, as a text.
fn joined(rt: &impl Abort, alloc: Global, pieces: &Pieces) -> Vec<u8> {
    let mut text = Vec::new(alloc);
    for piece in pieces {
        text.extend_from_slice(piece.as_bytes())
            .expect(rt, "memory");
    }
    text
}

/// Appends a text in one frame, or in two.
fn add_text(bytes: &mut Vec<u8>, text: &[u8], is_whole: bool) -> Result<(), AllocError> {
    if is_whole {
        return add_frame(bytes, TEXT, text);
    }
    let middle = text.len() / 2;
    add_frame(bytes, FIRST_PART, front(text, middle))?;
    add_frame(bytes, LAST_PART, behind(text, middle))
}

/// Appends what a connection says next.
pub fn add_said(
    rt: &impl Abort,
    alloc: Global,
    bytes: &mut Vec<u8>,
    dice: &mut Dice,
    hall: &Hall,
    speaker: &mut Speaker,
) {
    let kind = dice.below(32);
    let added = match other_frames().get(kind as usize) {
        Some((first, payload)) => add_frame(bytes, *first, payload),
        None => {
            let text = joined(rt, alloc, &pieces(dice, hall, speaker));
            add_text(bytes, text.as_slice(), kind > 5)
        }
    };
    added.expect(rt, "memory");
}

/// Appends how a connection goes: it closes, with a code or without one, or its stream ends.
pub fn add_farewell(rt: &impl Abort, bytes: &mut Vec<u8>, dice: &mut Dice) {
    let added = match dice.below(4) {
        0 => Ok(()),
        1 => add_frame(bytes, CLOSE, &[]),
        _ => add_frame(bytes, CLOSE, NORMAL),
    };
    added.expect(rt, "memory");
}
