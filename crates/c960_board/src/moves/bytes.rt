//! The bytes of a move's text.

ghost use Rattle.std.specs.Prelude.{◌≡◌, ◌<◌, ◌≤◌, [], ◌∷◌, ◌++◌, length};

use arrayvec::ArrayVec;
use std::marker::Model;

/// A text of at most five bytes, which needs no allocator. Contracts see its bytes.
#[derive(Drop)]
pub struct MoveBytes {
    bytes: ArrayVec<u8, 5>,
}

impl Model for MoveBytes {
    ghost use Rattle.std.specs.Prelude.{List, ℕ};

    ghost Value = { List ℕ };

    ghost view = { λ t. t.bytes.items };
}

impl MoveBytes {
    /// The empty text.
    pub(crate) fn new() -> MoveBytes
        ensures { result ≡ [] }
    {
        MoveBytes {
            bytes: ArrayVec::new(),
        }
    }

    /// Appends a byte.
    pub(crate) fn push(&mut self, byte: u8)
        requires { length self.old < 5 }
        ensures { self.new ≡ self.old ++ byte ∷ [] }
    {
        self.bytes.push(byte);
    }

    /// The bytes, at most five.
    pub fn as_slice(&self) -> &[u8]
        ensures value { result.now ≡ self.now }
        ensures short { length result.now ≤ 5 }
    {
        self.bytes.as_slice()
    }
}
