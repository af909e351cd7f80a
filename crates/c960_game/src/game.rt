//! A game: its log, its present position and its outcome.

ghost use Rattle.std.specs.Prelude.{◌≡◌, ◌≤◌, ◌<◌, ◌↔◌, ◌⊎◌, ◌==◌, [], ◌∷◌, ◌++◌, length, take, drop, slice_get, Some, Err, is_some, false, IsTrue, IsSome, IfSome, IfOk, IfErr, OnOk, is_ok, if◌then◌else◌};
ghost use Rattle.c960_board.specs.Moves.{Triple};
ghost use Rattle.c960_rules.specs.After.{after};
ghost use Rattle.c960_rules.specs.Legal.{Legal};
ghost use Rattle.c960_game.specs.Draws.{draw_of};
ghost use Rattle.c960_game.specs.Ending.{named_outcome};
ghost use Rattle.c960_game.specs.Ends.{outcome_of, own_outcome};
ghost use Rattle.c960_game.specs.Ground.{Ground};
ghost use Rattle.c960_game.specs.Tests.Ground.{has_ground};
ghost use Rattle.c960_game.specs.Tests.Moves.{is_legal_move};
ghost use Rattle.c960_game.specs.Positions.{last_position, position_at};
ghost use Rattle.c960_game.specs.Record.{IsGame, end_answer, opened, play_answer, with_move, with_outcome};
ghost use Rattle.c960_game.specs.Times.{times};

use crate::ending::Ending;
use crate::kept_positions::{MILE, RECENT, add_milestone, add_recent, count_same, row_of};
use crate::limits::MOST_PLIES;
use crate::outcome::Outcome;
use crate::refusal::Refusal;
use crate::replay::Replaying;
use crate::same::same_colour;
use c960_board::{Colour, Move, Position, STARTS};
use c960_rules::{Lawful, State, play, state};
use std::alloc::Global;
use std::marker::Model;

/// A game from a numbered start. It keeps its moves, the present position, the positions since the last capture or pawn
/// move (earlier positions cannot come back), and every thirty-second position. All its memory is reserved when it is opened,
/// and no vector ever grows. Contracts see a `GameRecord`.
#[derive(Drop)]
pub struct Game {
    start: u16,
    plies: u16,
    moves: Vec<Move>,
    position: Lawful,
    recent: Vec<Lawful>,
    milestones: Vec<Lawful>,
    outcome: Option<Outcome>,
}

impl Model for Game {
    ghost use Rattle.c960_game.specs.Inner.KeptPositions.{IsKept, record_of};
    ghost use Rattle.c960_game.specs.GameRecord.{GameRecord};

    ghost Value = { GameRecord };

    ghost view = { record_of };

    ghost invariant = { IsKept };
}

/// The outcome that a position has by itself.
fn outcome_of(position: &Lawful) -> Option<Outcome>
    ensures { result ≡ outcome_of position.now }
{
    match state(position) {
        State::Going => None,
        State::Checkmate => Some(Outcome::Checkmate(position.position().turn().other())),
        State::Stalemate => Some(Outcome::Stalemate),
    }
}

/// The draw that comes without a claim (FIDE Laws, Articles 9.6.1 and 9.6.2), if any, for a position that has appeared this often
/// and has this half-move counter.
#[tactic(auto, unfolding(crate::specs::Draws::draw_of))]
fn draw_of(appearances: usize, half_moves: u16) -> Option<Outcome>
    ensures { result ≡ draw_of appearances half_moves }
{
    if appearances >= 5 {
        Some(Outcome::Fivefold)
    } else if half_moves >= 150 {
        Some(Outcome::SeventyFive)
    } else {
        None
    }
}

/// The position of a numbered start.
#[tactic(auto, using(c960_rules::proofs::lemmas::StartFacts::start_is_lawful, crate::proofs::lemmas::LogFacts::position_after_none))]
fn starting_position(start: u16) -> Option<Lawful>
    ensures some { IsSome result ↔ (start < STARTS) }
    ensures value { IfSome result (λ position. position ≡ last_position start []) }
{
    let position = Position::start(start)?;
    // No start has a king in check.
    let Ok(lawful) = Lawful::of(position) else {
        unreachable!();
    };
    Some(lawful)
}

impl Game {
    /// A game from a numbered start, whose log may have `plies` moves, 1 to 16,384. All its memory is reserved here.
    /// Refused: `BadStart` exactly from 960 on, and `OutOfMemory`.
    pub fn open(alloc: Global, start: u16, plies: u16) -> Result<Game, Refusal>
        requires some_ply { 1 ≤ plies }
        requires most_plies { plies ≤ MOST_PLIES }
        ensures bad_start { (result ≡ Err Refusal.BadStart) ↔ (STARTS ≤ start) }
        ensures refusals { IfErr result (λ r. (r ≡ Refusal.BadStart) ⊎ (r ≡ Refusal.OutOfMemory)) }
        ensures value { IfOk result (λ g. g ≡ opened start plies) }
        ensures valid { IfOk result IsGame }
    {
        let Some(position) = starting_position(start) else {
            return Err(Refusal::BadStart);
        };
        let Ok(moves) = Vec::with_capacity(alloc, usize::from(plies)) else {
            return Err(Refusal::OutOfMemory);
        };
        let Ok(recent) = row_of(alloc, RECENT, position) else {
            return Err(Refusal::OutOfMemory);
        };
        let Ok(milestones) = row_of(alloc, usize::from(plies) / MILE + 1, position) else {
            return Err(Refusal::OutOfMemory);
        };
        Ok(Game {
            start,
            plies,
            moves,
            position,
            recent,
            milestones,
            outcome: None,
        })
    }

    /// The number of the start, 0 to 959.
    pub fn start(&self) -> u16
        ensures value { result ≡ self.now.start }
        ensures valid { IsGame self.now }
    {
        self.start
    }

    /// How many moves were made.
    pub fn len(&self) -> u16
        ensures { result ≡ length self.now.log }
    {
        self.moves.len() as u16
    }

    /// The move at a place of the log, counted from 0, or None exactly from the log's length on.
    pub fn move_at(&self, place: u16) -> Option<Move>
        ensures { result ≡ slice_get self.now.log place }
    {
        self.moves.get(usize::from(place)).copied()
    }

    /// The outcome, once the game is over.
    pub fn outcome(&self) -> Option<Outcome>
        ensures { result ≡ self.now.outcome }
    {
        self.outcome
    }

    /// The present position.
    pub fn position(&self) -> Position
        ensures { result ≡ last_position self.now.start self.now.log }
    {
        self.position.position()
    }

    /// The position after that many moves, or None exactly if fewer were made.
    pub fn position_at(&self, place: u16) -> Option<Position>
        ensures { result ≡ position_at self.now.start self.now.log place }
    {
        match self.replay_at(place) {
            Some(replaying) => Some(replaying.position()),
            None => None,
        }
    }

    /// The position after that many moves, to be worked out without the game, or None exactly if fewer were made. For the present one
    /// nothing remains to be worked out.
    #[tactic(auto, unfolding(crate::specs::Positions::position_at))]
    pub fn replay_at(&self, place: u16) -> Option<Replaying>
        ensures { result ≡ position_at self.now.start self.now.log place }
    {
        if self.len() < place {
            return None;
        }
        if self.len() == place {
            return Some(self.present());
        }
        Some(self.earlier(place))
    }

    /// The present position.
    fn present(&self) -> Replaying
        ensures { result ≡ last_position self.now.start self.now.log }
    {
        Replaying::new(&self.position, &[])
    }

    /// The position after that many moves of the log. It is worked out from the last kept position before it.
    fn earlier(&self, place: u16) -> Replaying
        requires { place ≤ length self.now.log }
        ensures { result ≡ last_position self.now.start (take place self.now.log) }
    {
        let mile = usize::from(place) / MILE;
        Replaying::new(
            &self.milestones[mile],
            &self.moves[mile * MILE..usize::from(place)],
        )
    }

    /// How often the present position has appeared, including now (FIDE Laws, Article 9.2). The search goes back no further than
    /// to the last capture or pawn move.
    pub fn appearances(&self) -> u16
        ensures { result ≡ times self.now.start self.now.log }
    {
        count_same(&self.recent, &self.position) as u16
    }

    /// Whether the game is over.
    fn is_over(&self) -> bool
        ensures value { result ≡ is_some self.now.outcome }
        ensures valid { IsGame self.now }
    {
        self.outcome.is_some()
    }

    /// Whether the log has as many moves as it may have.
    fn is_full(&self) -> bool
        ensures { result ≡ (length self.now.log == self.now.plies) }
    {
        self.moves.len() == usize::from(self.plies)
    }

    /// The position after a legal move.
    #[tactic(auto, using(crate::proofs::lemmas::KeptFacts::half_moves_room, crate::proofs::lemmas::KeptFacts::number_room))]
    fn next(&self, m: Move) -> Option<Lawful>
        ensures legal { IsSome result ↔ Legal (last_position self.now.start self.now.log) m }
        ensures test { is_some result ≡ is_legal_move (last_position self.now.start self.now.log) m }
        ensures value { IfSome result (λ next. next ≡ after (last_position self.now.start self.now.log) m) }
    {
        play(&self.position, m)
    }

    /// How often the position after a legal move has then appeared, including that time.
    fn appearances_after(&self, m: Move, next: &Lawful) -> usize
        requires going { is_some self.now.outcome ≡ false }
        requires room { length self.now.log < self.now.plies }
        requires legal { Legal (last_position self.now.start self.now.log) m }
        requires next { next.now ≡ after (last_position self.now.start self.now.log) m }
        ensures { result ≡ times self.now.start (self.now.log ++ m ∷ []) }
    {
        if next.position().half_moves() == 0 {
            1
        } else {
            count_same(&self.recent, next) + 1
        }
    }

    /// The outcome that the game has by itself after a legal move.
    fn outcome_after(&self, m: Move, next: &Lawful) -> Option<Outcome>
        requires going { is_some self.now.outcome ≡ false }
        requires room { length self.now.log < self.now.plies }
        requires legal { Legal (last_position self.now.start self.now.log) m }
        requires next { next.now ≡ after (last_position self.now.start self.now.log) m }
        ensures { result ≡ own_outcome self.now.start (self.now.log ++ m ∷ []) }
    {
        match outcome_of(next) {
            Some(outcome) => Some(outcome),
            None => draw_of(
                self.appearances_after(m, next),
                next.position().half_moves(),
            ),
        }
    }

    /// Adds a legal move to the log of a game that goes on and has room, with the position after it and the outcome.
    fn append(&mut self, m: Move, next: Lawful, outcome: Option<Outcome>)
        requires going { is_some self.old.outcome ≡ false }
        requires room { length self.old.log < self.old.plies }
        requires legal { Legal (last_position self.old.start self.old.log) m }
        requires next { next ≡ after (last_position self.old.start self.old.log) m }
        requires outcome { outcome ≡ own_outcome self.old.start (self.old.log ++ m ∷ []) }
        ensures game { self.new ≡ with_move self.old m }
        ensures valid { IsGame self.new }
    {
        add_recent(&mut self.recent, next);
        add_milestone(&mut self.milestones, self.moves.len() + 1, next);
        self.moves.push_reserved(m);
        self.position = next;
        self.outcome = outcome;
    }

    /// Whether an ending has its ground.
    fn has_ground(&self, ending: &Ending) -> bool
        ensures test { result ≡ has_ground self.now.start self.now.log ending.now }
        ensures ground { IsTrue result ↔ Ground self.now.start self.now.log ending.now }
    {
        let position = self.position();
        match ending {
            Ending::ClaimThreefold(claimant) => {
                same_colour(position.turn(), *claimant) && self.appearances() >= 3
            }
            Ending::ClaimFifty(claimant) => {
                same_colour(position.turn(), *claimant) && position.half_moves() >= 100
            }
            Ending::Resigns(_)
            | Ending::Agreed
            | Ending::Abandoned
            | Ending::LosesOnTime(_)
            | Ending::Decided(_) => true,
        }
    }

    /// Gives a game that goes on the outcome of an ending with its ground.
    fn close(&mut self, ending: &Ending) -> Outcome
        requires going { is_some self.old.outcome ≡ false }
        requires ground { Ground self.old.start self.old.log ending.now }
        ensures value { result ≡ named_outcome ending.now }
        ensures game { self.new ≡ with_outcome self.old (named_outcome ending.now) }
        ensures valid { IsGame self.new }
    {
        let outcome = ending.outcome();
        self.outcome = Some(outcome);
        outcome
    }

    /// Makes a move. Returns the outcome if it ends the game: by mate or stalemate, or else by a draw that comes without a
    /// claim, for a position that has appeared five times or after seventy-five moves of each side without a capture and a pawn
    /// move (FIDE Laws, Articles 5.1.1, 5.2.1 and 9.6). Refused, in this order: `GameOver`; `LogFull` if the log has as many
    /// moves as it may have; `Illegal`. A refused move changes nothing.
    #[tactic(auto, unfolding(crate::specs::Record::play_answer))]
    pub fn play(&mut self, m: Move) -> Result<Option<Outcome>, Refusal>
        ensures answer { result ≡ play_answer self.old m }
        ensures game { self.new ≡ (if is_ok result then with_move self.old m else self.old) }
        ensures legal { OnOk result (Legal (last_position self.old.start self.old.log) m) }
        ensures illegal { (result ≡ Err Refusal.Illegal) → Legal (last_position self.old.start self.old.log) m → ⊥ }
        ensures outcome { IfOk result (λ outcome. self.new.outcome ≡ outcome) }
        ensures valid { IsGame self.new }
    {
        if self.is_over() {
            return Err(Refusal::GameOver);
        }
        if self.is_full() {
            return Err(Refusal::LogFull);
        }
        let Some(next) = self.next(m) else {
            return Err(Refusal::Illegal);
        };
        let outcome = self.outcome_after(m, &next);
        self.append(m, next, outcome);
        Ok(outcome)
    }

    /// Ends the game. Returns the outcome that the ending names. Refused, in this order: `GameOver`; `ClaimRefused` if
    /// the claimant does not have the move or the claim has no ground (FIDE Laws, Articles 9.2 and 9.3). A refused ending
    /// changes nothing.
    #[tactic(auto, unfolding(crate::specs::Record::end_answer))]
    pub fn end(&mut self, ending: Ending) -> Result<Outcome, Refusal>
        ensures answer { result ≡ end_answer self.old ending }
        ensures game { self.new ≡ (if is_ok result then with_outcome self.old (named_outcome ending) else self.old) }
        ensures ground { OnOk result (Ground self.old.start self.old.log ending) }
        ensures no_ground { (result ≡ Err Refusal.ClaimRefused) → Ground self.old.start self.old.log ending → ⊥ }
        ensures outcome { IfOk result (λ outcome. self.new.outcome ≡ Some outcome) }
        ensures valid { IsGame self.new }
    {
        if self.is_over() {
            return Err(Refusal::GameOver);
        }
        if !self.has_ground(&ending) {
            return Err(Refusal::ClaimRefused);
        }
        Ok(self.close(&ending))
    }
}
