//! The bytes of a written text.

ghost use Rattle.std.specs.Prelude.{◌≡◌, ◌≤◌, ◌==◌, length};

use arrayvec::ArrayVec;
use std::marker::Model;

/// The bytes of a text. The longest text has 93: 64 squares and 7 slashes, the letter of the turn, 4 rights, 2 bytes of a target, 5 digits
/// of each counter, and 5 spaces.
pub(super) type TextBytes = ArrayVec<u8, 93>;

/// The text of a position in ASCII, at most 93 bytes, which are stored in the value itself: nothing is allocated. Contracts
/// see the list of the bytes.
#[derive(Drop)]
pub struct FenBytes {
    bytes: TextBytes,
}

impl Model for FenBytes {
    ghost use Rattle.std.specs.Prelude.{ℕ, List};

    ghost Value = { List ℕ };

    ghost view = { λ text. text.bytes.items };
}

impl FenBytes {
    /// The text of these bytes.
    pub(super) fn new(bytes: TextBytes) -> FenBytes
        ensures { result ≡ bytes.items }
    {
        FenBytes { bytes }
    }

    /// The bytes, at most 93.
    pub fn as_slice(&self) -> &[u8]
        ensures value { result.now ≡ self.now }
        ensures short { length result.now ≤ 93 }
    {
        self.bytes.as_slice()
    }

    /// The number of bytes, at most 93.
    pub fn len(&self) -> usize
        ensures value { result ≡ length self.now }
        ensures short { result ≤ 93 }
    {
        self.bytes.len()
    }

    /// Whether there are no bytes, which is never true of a written text.
    pub fn is_empty(&self) -> bool
        ensures { result ≡ (length self.now == 0) }
    {
        self.bytes.is_empty()
    }
}
