//! Pieces of bytes that make up lines.

ghost use Rattle.std.specs.Prelude.{◌≡◌, ◌≢◌, ◌<◌, ◌≤◌, ℕ, length, slice_index, take};

use memchr::memchr;

/// How many bytes come before the first line feed: all of them if there is none.
pub fn line_end(bytes: &[u8]) -> usize
    ensures bound { result ≤ length bytes.now }
    ensures plain { (k : ℕ) → k < result → slice_index bytes.now k ≢ 10 }
    ensures feed { result < length bytes.now → slice_index bytes.now result ≡ 10 }
{
    memchr(b'\n', bytes).unwrap_or(bytes.len())
}

/// The first bytes, at most `most` of them.
pub fn front(bytes: &[u8], most: usize) -> &[u8]
    ensures { result.now ≡ take most bytes.now }
{
    &bytes[..bytes.len().min(most)]
}
