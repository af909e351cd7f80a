//! The letters of the pieces of a placement, rank by rank.

ghost use Rattle.std.specs.Prelude.{◌≡◌, ◌<◌, ◌+◌, ◌*◌, ℕ};
ghost use Rattle.c960_board.specs.Inner.PieceLetters.{letter_in, letter_on, AreLettersOf};

use crate::fen::spread::spread_rank;
use crate::sets::Sets;

/// The letters by the numbers of the kinds, pawn 0, knight 1, bishop 2, rook 3, queen 4 and king 5, and 8 more for White. No piece has
/// the number 6 or 7.
static LETTERS: [u8; 16] = *b"pnbrqkkkPNBRQKKK";

/// The numbers of the kinds on the occupied squares, as sets of squares: those where the number has a 1 in its ones, its twos and its
/// fours. What they say of a vacant square means nothing. Four bits of a square give its letter from a table. Tests for one kind after
/// another would be up to six branches, each a likely branch misprediction.
#[derive(Drop)]
pub(super) struct Letters {
    /// The squares of knights, rooks and kings.
    ones: u64,
    /// The squares of bishops and rooks.
    twos: u64,
    /// The squares of queens and kings.
    fours: u64,
    /// The squares of White's pieces.
    white: u64,
}

/// The letters of the pieces of a rank. The bits of its squares are gathered once, and then a letter takes one shift and one look-up.
#[derive(Drop)]
pub(super) struct RankLetters {
    /// For each file, from file a on, four bits that number the letter of its piece. Of a vacant square they mean nothing.
    codes: u32,
}

impl Letters {
    /// The letters of the pieces in the sets. Of a square in the sets of several kinds the first counts, as in `Sets::kind_on`: so each set
    /// is masked by those before it.
    pub(super) fn of(sets: &Sets) -> Letters
        ensures { AreLettersOf sets.now result }
    {
        Letters {
            ones: !sets.pawns & (sets.knights | (!sets.bishops & (sets.rooks | !sets.queens))),
            twos: !sets.pawns & (!sets.knights & (sets.bishops | sets.rooks)),
            fours: !sets.pawns & (!sets.knights & (!sets.bishops & !sets.rooks)),
            white: sets.white,
        }
    }

    /// The letters of the pieces of the rank. Rank 0 is the first.
    #[inline(always)]
    pub(super) fn rank(&self, rank: u8) -> RankLetters
        requires on_board { rank < 8 }
        ensures { (file : ℕ) → file < 8 → letter_in result file ≡ letter_on self.now (8 * rank + file) }
    {
        RankLetters {
            codes: spread_rank(self.ones, rank)
                + 2 * spread_rank(self.twos, rank)
                + 4 * spread_rank(self.fours, rank)
                + 8 * spread_rank(self.white, rank),
        }
    }
}

impl RankLetters {
    /// The letter of the piece on the occupied square of the file: a capital for White, a small letter for Black.
    #[inline(always)]
    pub(super) fn on(&self, file: u8) -> u8
        requires on_board { file < 8 }
        ensures { result ≡ letter_in self.now file }
    {
        LETTERS[((self.codes >> (4 * file)) & 15) as usize]
    }
}
