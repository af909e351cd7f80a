//! The commands of the random events, and their texts.

use crate::tests::chance::{Dice, text_at};
use crate::tests::hall::answers::{
    AGREED, BLACK_LOSES_ON_TIME, BLACK_RESIGNS, BLACK_WINS, DRAWN, THREEFOLD, WHITE_LOSES_ON_TIME,
    WHITE_WINS,
};
use crate::tests::hall::plain::{Plain, Speaker};
use crate::tests::hall::values::name_text;
use c960_board::Colour;
use c960_game::Outcome;
use c960_game::Result::{BlackWins, Draw, WhiteWins};

/// How many names of boards occur: more than there may be boards.
pub const NAMES: u32 = 20;

/// Endings: how each is asked for. The claim comes last, since it is drawn most often.
static HOW: [&str; 8] = [
    "\"how\":\"agreed\"",
    "\"how\":\"resign\",\"side\":\"black\"",
    "\"how\":\"time\",\"side\":\"white\"",
    "\"how\":\"time\",\"side\":\"black\"",
    "\"how\":\"decided\",\"result\":\"1-0\"",
    "\"how\":\"decided\",\"result\":\"0-1\"",
    "\"how\":\"decided\",\"result\":\"1/2-1/2\"",
    "\"how\":\"threefold\",\"side\":\"white\"",
];

/// Their outcomes, and the answers if they are accepted.
static ENDINGS: [(Outcome, &str); 8] = [
    (Outcome::Agreed, AGREED),
    (Outcome::Resigned(Colour::Black), BLACK_RESIGNS),
    (Outcome::LostOnTime(Colour::White), WHITE_LOSES_ON_TIME),
    (Outcome::LostOnTime(Colour::Black), BLACK_LOSES_ON_TIME),
    (Outcome::Decided(WhiteWins), WHITE_WINS),
    (Outcome::Decided(BlackWins), BLACK_WINS),
    (Outcome::Decided(Draw), DRAWN),
    (Outcome::Threefold, THREEFOLD),
];

/// The moves.
static PLAYED: [&str; 4] = [
    "\"move\":\"g1f3\"",
    "\"move\":\"g8f6\"",
    "\"move\":\"f3g1\"",
    "\"move\":\"f6g8\"",
];

/// Follows from each place, and from the one behind the last.
static FROM: [&str; 12] = [
    "\"spectator\":1,\"from\":0",
    "\"spectator\":1,\"from\":1",
    "\"spectator\":1,\"from\":2",
    "\"spectator\":1,\"from\":3",
    "\"spectator\":1,\"from\":4",
    "\"spectator\":1,\"from\":5",
    "\"spectator\":1,\"from\":6",
    "\"spectator\":1,\"from\":7",
    "\"spectator\":1,\"from\":8",
    "\"spectator\":1,\"from\":9",
    "\"spectator\":1,\"from\":10",
    "\"spectator\":1,\"from\":11",
];

/// A command, with the number of its board's name.
#[derive(Clone, Copy)]
pub enum Command {
    Open(u32, u16),
    /// The move is the one of this index.
    Submit(u32, u16),
    /// The ending is the one of this index.
    End(u32, usize),
    Follow(u32),
    FollowFrom(u32, u16),
}

/// The endings' outcomes and answers.
fn endings() -> &'static [(Outcome, &'static str)] {
    &ENDINGS
}

/// What is answered to whoever ends a game so, if anybody can.
pub fn answer_of(outcome: Outcome) -> Option<&'static str> {
    for (its_outcome, answer) in endings() {
        if *its_outcome == outcome {
            return Some(*answer);
        }
    }
    None
}

/// The outcome and the answer of the ending of this index.
pub fn ending(which: usize) -> Option<(Outcome, &'static str)> {
    endings().get(which).copied()
}

/// How endings are asked for.
fn hows() -> &'static [&'static str] {
    &HOW
}

fn moves() -> &'static [&'static str] {
    &PLAYED
}

fn froms() -> &'static [&'static str] {
    &FROM
}

/// Any move, or as often the one of this place.
fn any_move(dice: &mut Dice, place: u16) -> u16 {
    let any = dice.few(8);
    if any < 4 { any } else { place % 4 }
}

/// A command for this board, of this kind, or an opening under this name.
fn of_kind(dice: &mut Dice, board: u32, plies: u16, kind: u32, name: u32) -> Command {
    match kind {
        0..=13 => Command::Submit(board, any_move(dice, plies)),
        14 => Command::End(board, (dice.below(28) as usize).min(7)),
        15..=17 => Command::Follow(board),
        18..=25 => {
            let back = dice.few(6);
            Command::FollowFrom(board, plies.wrapping_add(1).saturating_sub(back))
        }
        _ => Command::Open(name, if dice.below(8) == 0 { 960 } else { 518 }),
    }
}

impl Command {
    /// Any of them: a speaker with a game that goes on most often moves in it, and others most often follow.
    pub fn drawn(dice: &mut Dice, plain: &Plain, speaker: Speaker) -> Command {
        let name = dice.below(NAMES);
        let (board, kind) = match plain.own_going(speaker, name) {
            Some(own) if dice.below(4) > 0 => (own, dice.below(16)),
            _ if dice.below(8) > 0 => (plain.some_name(name), dice.below(16).wrapping_add(12)),
            _ => (name, dice.below(16).wrapping_add(12)),
        };
        of_kind(dice, board, plain.plies(board), kind, name)
    }

    /// The command's word, its board, and what is behind that in its text.
    fn parts(self) -> (&'static str, u32, &'static str) {
        match self {
            Command::Open(name, 518) => ("open", name, "\"start\":518"),
            Command::Open(name, _) => ("open", name, "\"start\":960"),
            Command::Submit(name, which) => ("submit", name, text_at(moves(), usize::from(which))),
            Command::End(name, which) => ("end", name, text_at(hows(), which)),
            Command::Follow(name) => ("follow", name, "\"spectator\":1"),
            Command::FollowFrom(name, from) => {
                ("follow", name, text_at(froms(), usize::from(from)))
            }
        }
    }

    /// Its text, in pieces.
    pub fn pieces(self) -> [&'static str; 7] {
        let (word, board, rest) = self.parts();
        let name = name_text(board);
        [
            "{\"cmd\":\"",
            word,
            "\",\"board\":\"",
            name,
            "\",",
            rest,
            "}",
        ]
    }
}
