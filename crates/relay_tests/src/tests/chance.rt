//! Random numbers, and what is drawn by them.

use c960_board::Colour;
use c960_game::Ending;
use c960_game::Result::{BlackWins, Draw, WhiteWins};

/// Random numbers, the same in each run.
#[derive(Drop)]
pub struct Dice {
    pub seed: u32,
}

impl Dice {
    pub fn roll(&mut self) -> u32 {
        self.seed = self.seed.wrapping_mul(1664525).wrapping_add(1013904223);
        self.seed >> 16
    }
}

/// Moves, of which few are legal at a time; the first four mate.
pub const MOVES: [&str; 8] = [
    "f2f3", "e7e5", "g2g4", "d8h4", "g1f3", "g8f6", "f3g1", "f6g8",
];

pub const ENDINGS: [Ending; 13] = [
    Ending::Resigns(Colour::White),
    Ending::Resigns(Colour::Black),
    Ending::Agreed,
    Ending::Abandoned,
    Ending::ClaimThreefold(Colour::White),
    Ending::ClaimThreefold(Colour::Black),
    Ending::ClaimFifty(Colour::White),
    Ending::ClaimFifty(Colour::Black),
    Ending::LosesOnTime(Colour::White),
    Ending::LosesOnTime(Colour::Black),
    Ending::Decided(WhiteWins),
    Ending::Decided(BlackWins),
    Ending::Decided(Draw),
];
