//! Why a line was not noted.

ghost use Rattle.std.specs.Prelude.{◌≡◌};
ghost use Rattle.chained_lines.specs.declared.note_error.NoteError.TheVariants.{OutOfMemory};

use std::alloc::AllocError;

/// Why a line was not noted.
#[derive(Clone, Copy, Debug, PartialEq, Eq)]
pub enum NoteError {
    /// There was no memory for it.
    OutOfMemory,
    /// It has a line feed, which would make two lines of it.
    HasLineFeed,
}

impl From<AllocError> for NoteError {
    ghost from_gives = { λ _ error. error ≡ OutOfMemory };

    fn from(_: AllocError) -> Self {
        NoteError::OutOfMemory
    }
}
