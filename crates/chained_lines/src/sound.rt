//! The part of a file that counts.

ghost use Rattle.std.specs.Prelude.{◌≡◌, take, length};
ghost use Rattle.chained_lines.specs.Lines.{file_of, last_seal, no_seal, read_lines};

use crate::first::first_line;
use crate::seal::{NO_SEAL, Seal};

/// The lines of a file up to the first that does not count.
#[derive(Clone, Copy, Debug, PartialEq, Eq)]
pub struct SoundPart {
    /// How many they are.
    pub lines: usize,
    /// How many bytes they have.
    pub bytes: usize,
    /// The seal of the last of them, or `NO_SEAL`.
    pub seal: Seal,
}

/// The part of a file that counts, of all its bytes. A file is cut there before a journal goes on in it.
pub fn sound_part(bytes: &[u8]) -> SoundPart
    ensures lines { result.lines ≡ length (read_lines no_seal bytes.now) }
    ensures size { result.bytes ≡ length (file_of no_seal (read_lines no_seal bytes.now)) }
    ensures bytes { take result.bytes bytes.now ≡ file_of no_seal (read_lines no_seal bytes.now) }
    ensures seal { result.seal ≡ last_seal no_seal (read_lines no_seal bytes.now) }
{
    let mut lines = 0;
    let mut rest = bytes;
    let mut seal = NO_SEAL;
    while let Some(found) = first_line(&seal, rest) {
        lines += 1;
        rest = found.rest;
        seal = found.seal;
    }
    SoundPart {
        lines,
        bytes: bytes.len() - rest.len(),
        seal,
    }
}
