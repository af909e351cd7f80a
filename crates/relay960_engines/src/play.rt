//! A live game over lines: each line is a move, and its answer is the position after it or the reason why there is none.

ghost use Rattle.std.specs.Prelude.{◌≡◌, IfOk, IfErr};
ghost use Rattle.c960_game.specs.Record.{play_answer};
ghost use Rattle.relay960_engines.specs.Failures.{reads_failed, writes_failed};
ghost use Rattle.relay960_engines.specs.Play.{PlayStopped, Played, game_played, played_lines};

use crate::answerer::Answerer;
use crate::devices::{ReadDevice, WriteDevice};
use crate::fault::RunFault;
use crate::limits::ScriptLimits;
use crate::lines::run_lines;
use crate::play_texts::{fault_text, played_text, refused_text};
use crate::start::refuse;
use c960_board::{Move, read_move};
use c960_game::{Game, MOST_PLIES, Refusal};
use std::alloc::{AllocError, Global};
use std::borrow::CowSlice;

/// The answerer of a live game.
#[derive(Drop)]
pub struct Player {
    /// The game with the moves so far.
    pub game: Game,
}

impl Player {
    /// Makes a move, and returns the answer to it.
    ///
    /// # Errors
    ///
    /// There was no memory for the answer.
    fn play(&mut self, alloc: Global, m: Move) -> Result<Vec<u8>, AllocError>
        ensures text { IfOk result (λ text. text.items
            ≡ played_lines self.old.game m (play_answer self.old.game m)) }
        ensures game { self.new.game ≡ game_played self.old.game m (play_answer self.old.game m) }
    {
        match self.game.play(m) {
            Ok(outcome) => played_text(alloc, &self.game.position(), outcome),
            Err(refusal) => refused_text(alloc, refusal),
        }
    }
}

impl Answerer for Player {
    ghost use Rattle.std.specs.Prelude.{◌≡◌};
    ghost use Rattle.std.proofs.Common.{refl};
    ghost use Rattle.relay960_engines.specs.Play.{game_after, line_answer};
    ghost use Rattle.relay960_engines.specs.Inner.PlayCut.{IsAnswer, answer_cut, game_cut};

    ghost gives = { λ s l bytes t. IsAnswer s.game l bytes × (t.game ≡ game_after s.game l) };

    ghost spelt = { λ s l t given. (line_answer s.game l, (refl, given.1)) };

    ghost cut = { λ s l bytes t given. (answer_cut s.game l bytes given.0, game_cut s.game t.game l given.1) };

    #[tactic(auto, unfolding(crate::specs::Play::line_answer, crate::specs::Play::game_after))]
    fn answer(&mut self, alloc: Global, line: &[u8]) -> Result<CowSlice<'static, u8>, AllocError> {
        let text = match read_move(line) {
            Ok(m) => self.play(alloc, m)?,
            Err(fault) => fault_text(alloc, fault)?,
        };
        Ok(CowSlice::Owned(text))
    }
}

/// Plays a live game from start `number`. It reads one move a line and writes, at the latest before the next read, the position
/// after the move in Shredder-FEN and, if the move ends the game, a line with the outcome; or the line of the refusal
/// or of the text's fault, after which the game goes on. It returns the number of lines.
///
/// # Errors
///
/// `BadStart` from 960 on: nothing was read, and the refusal was written. `Read` if a read failed: the lines that ended
/// before were answered. `Write` if a write failed: a prefix of the answers was written, or of the refusal. `TooLong`
/// if there is a byte after the lines or bytes that the limits allow: the lines that end within both were answered.
/// `OutOfMemory` if there was no memory for the game, and nothing was read; or for an answer: all lines before its line were
/// answered, and neither it nor any line after it was.
pub fn play_run<R: ReadDevice, W: WriteDevice>(
    alloc: Global,
    number: u16,
    reader: &mut R,
    writer: &mut W,
    limits: ScriptLimits,
) -> Result<u64, RunFault>
    ensures done { IfOk result (λ count. Played number limits.bounds (R.remaining reader.old)
        (R.remaining reader.new) (W.contents writer.old) (W.contents writer.new) count) }
    ensures failed { IfErr result (λ fault. PlayStopped number limits.bounds (R.remaining reader.old)
        (R.remaining reader.new) (W.contents writer.old) (W.contents writer.new) fault) }
    ensures reads_counted { R.failures reader.new ≡ reads_failed result (R.failures reader.old) }
    ensures writes_counted { W.failures writer.new ≡ writes_failed result (W.failures writer.old) }
{
    let game = match Game::open(alloc, number, MOST_PLIES) {
        Ok(game) => game,
        Err(Refusal::BadStart) => {
            refuse(writer)?;
            return Err(RunFault::BadStart);
        }
        Err(_) => return Err(RunFault::OutOfMemory),
    };
    let mut player = Player { game };
    run_lines(alloc, reader, &mut player, writer, limits.bounds())
}
