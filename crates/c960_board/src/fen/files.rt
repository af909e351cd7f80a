//! Sets of files: bit f, counted from the lowest, is 1 if the file f is in the set. File a is 0.

ghost use Rattle.std.specs.Prelude.{◌≡◌, ◌<◌, ◌+◌, ◌*◌, ℕ, bit_or};
ghost use Rattle.std.specs.Int.{bit_at};

use crate::sets::Sets;

/// The files on which a square of the rank is occupied. Rank 0 is the first.
pub(super) fn occupied_files(sets: &Sets, rank: u8) -> u64
    requires { rank < 8 }
    ensures no_others { result < 256 }
    ensures occupied { (file : ℕ) → file < 8 → bit_at result file ≡ bit_at (bit_or sets.now.white sets.now.black) (8 * rank + file) }
{
    ((sets.white | sets.black) >> (8 * rank)) & 255
}
