//! Why no hall could be made of entries.

ghost use Rattle.std.specs.Prelude.{◌≡◌};
ghost use Rattle.relay_journal.specs.declared.unfit.Unfit.TheVariants.{OutOfMemory as NoMemory};

use chained_lines::NoteError;
use std::alloc::AllocError;

/// Why no hall could be made of entries.
#[derive(Clone, Copy, Debug, PartialEq, Eq)]
pub enum Unfit {
    /// This entry, counted from 0, was refused: the limits are smaller than when it was made, or nobody has made it.
    Refused(usize),
    /// There was no memory.
    OutOfMemory,
}

impl From<AllocError> for Unfit {
    ghost from_gives = { λ _ error. error ≡ NoMemory };

    fn from(_: AllocError) -> Unfit {
        Unfit::OutOfMemory
    }
}

impl From<NoteError> for Unfit {
    ghost from_gives = { λ _ error. error ≡ NoMemory };

    fn from(_: NoteError) -> Unfit {
        Unfit::OutOfMemory
    }
}
