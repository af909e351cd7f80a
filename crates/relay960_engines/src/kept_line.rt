//! The line that is being read, of which only the first bytes are kept.

ghost use Rattle.std.specs.Prelude.{◌≡◌, ◌==◌, [], length, IfOk};
ghost use Rattle.relay960_engines.specs.Inner.Taking.{kept_behind};

use crate::pieces::front;
use relay_messages::MOST_BYTES;
use std::alloc::{AllocError, Global};
use std::marker::Model;

/// How many bytes of a line are kept, at most: no answer depends on a later one, since a longer line is too long for a command.
pub const KEPT: usize = MOST_BYTES + 1;

/// The first bytes of a line, at most `KEPT`, for which the memory is reserved at once. Contracts see the list of the bytes.
#[derive(Drop)]
pub struct KeptLine {
    bytes: Vec<u8>,
}

impl Model for KeptLine {
    ghost use Rattle.std.specs.Prelude.{ℕ, ◌≤◌, List, vec_capacity};
    ghost use Rattle.relay960_engines.specs.declared.kept_line.TheConstants.{KEPT};

    ghost Value = { List ℕ };

    ghost view = { λ line. line.bytes.items };

    ghost invariant = { λ line. KEPT ≤ vec_capacity line.bytes };
}

impl KeptLine {
    /// An empty line.
    ///
    /// # Errors
    ///
    /// There was no memory.
    pub fn new(alloc: Global) -> Result<KeptLine, AllocError>
        ensures { IfOk result (λ line. line ≡ []) }
    {
        let bytes = Vec::with_capacity(alloc, KEPT)?;
        Ok(KeptLine { bytes })
    }

    /// Keeps more bytes, as long as fewer than `KEPT` are kept.
    pub fn extend(&mut self, piece: &[u8])
        ensures { self.new ≡ kept_behind self.old piece.now }
    {
        let room = KEPT.saturating_sub(self.bytes.len());
        // The memory is reserved.
        let _ = self.bytes.extend_from_slice(front(piece, room));
    }

    /// Begins the next line.
    pub fn clear(&mut self)
        ensures { self.new ≡ [] }
    {
        self.bytes.clear();
    }

    /// The bytes that are kept.
    pub fn as_slice(&self) -> &[u8]
        ensures { result.now ≡ self.now }
    {
        self.bytes.as_slice()
    }

    /// Whether the line has no byte.
    pub fn is_empty(&self) -> bool
        ensures { result ≡ (length self.now == 0) }
    {
        self.bytes.is_empty()
    }
}
