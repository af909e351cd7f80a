//! What the board notes of a cursor after loading its word.

ghost use Rattle.std.specs.Prelude.{◌≡◌, ℕ, ◌<◌};
ghost use Rattle.live_board.specs.declared.note.Note.TheVariants.{Open};
ghost use Rattle.live_board.specs.declared.words.TheConstants.{MARK};
ghost use Rattle.live_board.specs.Words.{joined_noted, note_after};

use crate::Note;
use crate::words::{closing_in, is_open, place_in};

/// The joining place that is noted, or 0 if there is none.
fn joined_noted(note: Note) -> u64
    ensures { result ≡ joined_noted note }
{
    match note {
        Note::Open { joined, .. } => joined,
        _ => 0,
    }
}

/// What a cursor's note becomes when the cursor says this.
pub fn note_after(note: Note, word: u64) -> Note
    ensures note { result ≡ note_after note word }
    ensures next { (joined next : ℕ) → result ≡ Open joined next → next < MARK }
{
    if word == 0 {
        Note::Vacant
    } else if is_open(word) {
        Note::Open {
            joined: joined_noted(note),
            next: place_in(word),
        }
    } else {
        Note::Closed(closing_in(word).unwrap_or(0))
    }
}
