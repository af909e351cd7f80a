//! What a journal keeps.

ghost use Rattle.std.specs.Prelude.{◌≡◌};
ghost use Rattle.relay_journal.specs.Kept.{entry_with, key_of, keyless as keyless_entry, step_of};

use c960_board::Move;
use c960_game::Ending;
use relay_core::{BoardName, Step};
use relay_hall::Key;

/// What has happened to a board. Mates and other ends that a move makes by itself are no entries.
#[derive(Clone, Copy)]
pub enum Entry {
    /// A board was opened with the game of this start number, by a connection with this key.
    Opens(BoardName, u16, Option<Key>),
    /// A move was played on it.
    Plays(BoardName, Move),
    /// Its game was ended, by its operator or by the hall.
    Ends(BoardName, Ending),
}

impl Entry {
    /// The step that it keeps.
    pub(crate) fn step(&self) -> Step
        ensures { result ≡ step_of self.now }
    {
        match *self {
            Entry::Opens(board, start, _) => Step::Open(board, start),
            Entry::Plays(board, m) => Step::Submit(board, m),
            Entry::Ends(board, ending) => Step::End(board, ending),
        }
    }

    /// The key of who made it, which is kept of an open alone.
    pub(crate) fn key(&self) -> Option<Key>
        ensures { result ≡ key_of self.now }
    {
        match *self {
            Entry::Opens(_, _, key) => key,
            Entry::Plays(..) | Entry::Ends(..) => None,
        }
    }

    /// The entry of a step, with the key that is kept with it, if there is one: a follow has none, and only an open has a key.
    pub(crate) fn with(key: Option<Key>, step: &Step) -> Option<Entry>
        ensures { result ≡ entry_with key step.now }
    {
        match *step {
            Step::Open(board, start) => Some(Entry::Opens(board, start, key)),
            Step::Submit(board, m) => keyless(&key, Entry::Plays(board, m)),
            Step::End(board, ending) => keyless(&key, Entry::Ends(board, ending)),
            Step::Follow(..) | Step::Take(_) | Step::Leave(_) => None,
        }
    }
}

/// An entry that is kept without a key, if there is none.
fn keyless(key: &Option<Key>, entry: Entry) -> Option<Entry>
    ensures { result ≡ keyless_entry key.now entry }
{
    match key {
        None => Some(entry),
        Some(_) => None,
    }
}
