//! Entries are noted in a journal: those that are missing of boards, as far as what was noted of them tells.

ghost use Rattle.std.specs.Prelude.{◌≡◌, ◌∷◌, [], map, drop, None, Some, OnOk};
ghost use Rattle.relay_hall.specs.Runs.{IsReached};
ghost use Rattle.relay_journal.specs.declared.entry.Entry.TheVariants.{Opens as OpensBoard, Plays as PlaysMove};
ghost use Rattle.relay_journal.specs.Behind.{behind_all, behind_noted, behind_one, kept_shown};
ghost use Rattle.relay_journal.specs.Bodies.{key_in};
ghost use Rattle.relay_journal.specs.Differences.{ending_for, ends_as, turn_of};
ghost use Rattle.relay_journal.specs.Kept.{key_of, kept_of};
ghost use Rattle.relay_journal.specs.Writing.{AreNoted};

use crate::bodies::{body_of, owner_text};
use crate::entry::Entry;
use crate::noted::{Noted, noted_at};
use c960_board::{Colour, Move};
use c960_game::{Ending, Outcome};
use chained_lines::{Journal, NoteError, StableStorage};
use relay_core::BoardName;
use relay_hall::{Hall, Shown};
use std::alloc::Global;

/// The ending that names an outcome when this side has the move, or None for one that a game has by itself.
fn ending_for(turn: Colour, outcome: Outcome) -> Option<Ending>
    ensures { result ≡ ending_for turn outcome }
{
    match outcome {
        Outcome::Resigned(side) => Some(Ending::Resigns(side)),
        Outcome::Agreed => Some(Ending::Agreed),
        Outcome::Abandoned => Some(Ending::Abandoned),
        Outcome::Threefold => Some(Ending::ClaimThreefold(turn)),
        Outcome::Fifty => Some(Ending::ClaimFifty(turn)),
        Outcome::LostOnTime(side) => Some(Ending::LosesOnTime(side)),
        Outcome::Decided(result) => Some(Ending::Decided(result)),
        Outcome::Checkmate(_) | Outcome::Stalemate | Outcome::Fivefold | Outcome::SeventyFive =>
            None,
    }
}

/// Notes an entry whose owner is this text.
///
/// # Errors
///
/// There was no memory.
fn note_entry<S: StableStorage>(
    journal: &mut Journal<S>,
    alloc: Global,
    owner: &[u8],
    entry: &Entry,
) -> Result<(), NoteError>
    ensures noted { key_in owner.now ≡ Some (key_of entry.now)
        → OnOk result (AreNoted S.contents S.synced journal.old journal.new (entry.now ∷ [])) }
    ensures storage { journal.new.storage ≡ journal.old.storage }
{
    let body = body_of(alloc, owner, entry)?;
    journal.note(&body)
}

/// Notes the open of a board.
///
/// # Errors
///
/// There was no memory, or no line tells the key of its owner.
fn note_open<S: StableStorage>(
    journal: &mut Journal<S>,
    alloc: Global,
    shown: &Shown<'_>,
) -> Result<(), NoteError>
    ensures noted { OnOk result (AreNoted S.contents S.synced journal.old journal.new
        (OpensBoard shown.now.name shown.now.game.start shown.now.owner.key ∷ [])) }
    ensures storage { journal.new.storage ≡ journal.old.storage }
{
    let key = shown.owner().key;
    let entry = Entry::Opens(shown.name(), shown.start(), key);
    let Some(owner) = owner_text(&key) else {
        return Err(NoteError::OutOfMemory);
    };
    note_entry(journal, alloc, owner, &entry)
}

/// Notes these moves of a board.
fn note_each<S: StableStorage>(
    journal: &mut Journal<S>,
    alloc: Global,
    board: BoardName,
    moves: &[Move],
) -> Result<(), NoteError>
    ensures noted { OnOk result (AreNoted S.contents S.synced journal.old journal.new (map (λ m. PlaysMove board m) moves.now)) }
    ensures storage { journal.new.storage ≡ journal.old.storage }
{
    for at in 0..moves.len() {
        note_entry(journal, alloc, b"-", &Entry::Plays(board, moves[at]))?;
    }
    Ok(())
}

/// Notes the moves of a board from a place on.
///
/// # Errors
///
/// There was no memory.
fn note_moves<S: StableStorage>(
    journal: &mut Journal<S>,
    alloc: Global,
    shown: &Shown<'_>,
    from: u16,
) -> Result<(), NoteError>
    ensures noted { OnOk result (AreNoted S.contents S.synced journal.old journal.new
        (map (λ m. PlaysMove shown.now.name m) (drop from shown.now.game.log))) }
    ensures storage { journal.new.storage ≡ journal.old.storage }
{
    let mut moves = Vec::new(alloc);
    let _ = shown.moves_from(from, &mut moves)?;
    note_each(journal, alloc, shown.name(), &moves)
}

/// Notes the end of a board's game, if it has one that no move has made.
///
/// # Errors
///
/// There was no memory.
fn note_end<S: StableStorage>(
    journal: &mut Journal<S>,
    alloc: Global,
    shown: &Shown<'_>,
) -> Result<(), NoteError>
    ensures noted { OnOk result (AreNoted S.contents S.synced journal.old journal.new
        (ends_as shown.now.name (turn_of (kept_shown shown.now).1) None shown.now.game.outcome)) }
    ensures storage { journal.new.storage ≡ journal.old.storage }
{
    let Some(outcome) = shown.outcome() else {
        return Ok(());
    };
    let turn = shown.summary().position.turn();
    let Some(ending) = ending_for(turn, outcome) else {
        return Ok(());
    };
    note_entry(journal, alloc, b"-", &Entry::Ends(shown.name(), ending))
}

/// Notes what is missing of a board behind what was noted of it.
///
/// # Errors
///
/// There was no memory.
fn note_behind<S: StableStorage>(
    journal: &mut Journal<S>,
    alloc: Global,
    shown: &Shown<'_>,
    noted: Noted,
) -> Result<(), NoteError>
    ensures noted { OnOk result (AreNoted S.contents S.synced journal.old journal.new (behind_noted (kept_shown shown.now) noted)) }
    ensures storage { journal.new.storage ≡ journal.old.storage }
{
    note_moves(journal, alloc, shown, noted.plies)?;
    if noted.has_end_of(shown) {
        return Ok(());
    }
    note_end(journal, alloc, shown)
}

/// Notes what is missing of a board, of which this was noted, or nothing.
///
/// # Errors
///
/// There was no memory, or no line tells the key of its owner.
fn note_board<S: StableStorage>(
    journal: &mut Journal<S>,
    alloc: Global,
    shown: &Shown<'_>,
    noted: Option<Noted>,
) -> Result<(), NoteError>
    ensures noted { OnOk result (AreNoted S.contents S.synced journal.old journal.new (behind_one (kept_shown shown.now) noted)) }
    ensures storage { journal.new.storage ≡ journal.old.storage }
{
    let Some(noted) = noted else {
        note_open(journal, alloc, shown)?;
        let open = Noted {
            plies: 0,
            is_over: false,
        };
        return note_behind(journal, alloc, shown, open);
    };
    note_behind(journal, alloc, shown, noted)
}

/// Notes what is missing of all boards, board by board, in the order of opening. If nothing is, no memory is taken.
///
/// # Errors
///
/// There was no memory, or no line tells the key of an owner.
pub(crate) fn note_all<S: StableStorage>(
    journal: &mut Journal<S>,
    alloc: Global,
    hall: &Hall,
    noted: &[Noted],
) -> Result<(), NoteError>
    ensures noted { OnOk result (AreNoted S.contents S.synced journal.old journal.new (behind_all noted.now (kept_of hall.now.floor))) }
    ensures storage { journal.new.storage ≡ journal.old.storage }
    ensures reached { IsReached hall.now }
{
    for at in 0..hall.len() {
        let Some(shown) = hall.board(at) else {
            unreachable!();
        };
        note_board(journal, alloc, &shown, noted_at(noted, at))?;
    }
    Ok(())
}
