//! Why a text was not read.

use json::Invalid;
use std::alloc::AllocError;

/// Why a text was not read.
#[derive(Clone, Copy, PartialEq, Eq, Drop)]
pub enum Unread {
    /// `serde_json` does not read it.
    NotJson,
    /// There was no memory.
    OutOfMemory,
}

impl From<Invalid> for Unread {
    ghost use Rattle.relay_messages.specs.declared.unread.Unread.TheVariants.{NotJson};
    ghost use Rattle.std.specs.Prelude.{◌≡◌};

    ghost from_gives = { λ _ e. e ≡ NotJson };

    fn from(_invalid: Invalid) -> Unread {
        Unread::NotJson
    }
}

impl From<AllocError> for Unread {
    ghost use Rattle.relay_messages.specs.declared.unread.Unread.TheVariants.{OutOfMemory};
    ghost use Rattle.std.specs.Prelude.{◌≡◌};

    ghost from_gives = { λ _ e. e ≡ OutOfMemory };

    fn from(_refused: AllocError) -> Unread {
        Unread::OutOfMemory
    }
}
