//! The 960 arrays of the first rank and Scharnagl's numbers for them (Guidelines II.2).

ghost use Rattle.std.specs.Prelude.{◌≡◌, ◌<◌, ◌↔◌, IsSome, IfSome, IsNone, IsTrue, ℕ, Some, map, unwrap_or};
ghost use Rattle.c960_board.specs.Array.{array, free_file, on_free, with_all};
ghost use Rattle.c960_board.specs.LawfulRank.{IsLawfulRank};
ghost use Rattle.c960_board.specs.declared.piece.Kind.TheVariants.{Pawn};

use crate::piece::Kind;

/// How many starts there are: their numbers are those below it.
pub const STARTS: u16 = 960;

/// The free square of the left knight, indexed by what is left of the number.
const LEFT_KNIGHT: [u8; 10] = [0, 0, 0, 0, 1, 1, 1, 2, 2, 3];

/// The free square of the right knight, indexed in the same way.
const RIGHT_KNIGHT: [u8; 10] = [1, 2, 3, 4, 2, 3, 4, 3, 4, 4];

/// The file of the free square with this index, counted from the a side from 0; 8 if there is none.
fn free_file(rank: &[Option<Kind>; 8], place: u8) -> usize
    ensures { result ≡ free_file rank.now place }
{
    let mut left = place;
    for (file, square) in rank.iter().enumerate() {
        if square.is_none() {
            if left == 0 {
                return file;
            }
            left -= 1;
        }
    }
    rank.len()
}

/// Puts a piece on the free square with this index.
fn put_on_free(rank: &mut [Option<Kind>; 8], place: u8, kind: Kind)
    ensures { rank.new ≡ on_free rank.old place kind }
{
    let file = free_file(rank, place);
    if file < 8 {
        rank[file] = Some(kind);
    }
}

/// The kinds of a full rank.
fn kinds_of(rank: &[Option<Kind>; 8]) -> [Kind; 8]
    ensures { result ≡ map (λ square. unwrap_or square Pawn) rank.now }
{
    let mut kinds = [Kind::Pawn; 8];
    for (file, square) in rank.iter().enumerate() {
        kinds[file] = square.unwrap_or(Kind::Pawn);
    }
    kinds
}

/// Places the pieces in the order of the number's digits: bishops, queen, knights, and the others on what is left.
fn squares_of(number: u16) -> [Option<Kind>; 8]
    requires { number < STARTS }
    ensures { result ≡ with_all number }
{
    let bishops = number / 4;
    let queen = bishops / 4;
    let knights = (queen / 6) as usize;
    let mut rank: [Option<Kind>; 8] = [None; 8];
    rank[2 * (number % 4) as usize + 1] = Some(Kind::Bishop);
    rank[2 * (bishops % 4) as usize] = Some(Kind::Bishop);
    put_on_free(&mut rank, (queen % 6) as u8, Kind::Queen);
    put_on_free(&mut rank, RIGHT_KNIGHT[knights], Kind::Knight);
    put_on_free(&mut rank, LEFT_KNIGHT[knights], Kind::Knight);
    put_on_free(&mut rank, 0, Kind::Rook);
    put_on_free(&mut rank, 0, Kind::King);
    put_on_free(&mut rank, 0, Kind::Rook);
    rank
}

/// The first rank of Scharnagl's number, from the a side. None from 960 on (Guidelines II.2).
pub fn arrangement(number: u16) -> Option<[Kind; 8]>
    ensures some { IsSome result ↔ (number < STARTS) }
    ensures value { IfSome result (λ rank. rank ≡ array number) }
{
    if number < STARTS {
        Some(kinds_of(&squares_of(number)))
    } else {
        None
    }
}

/// Whether the rank is that of the number.
fn is_rank(number: u16, rank: &[Kind; 8]) -> bool
    requires { number < STARTS }
    ensures { IsTrue result ↔ (array number ≡ rank.now) }
{
    kinds_of(&squares_of(number)) == *rank
}

/// The number of a first rank, below 960: the inverse of `arrangement`. None if the rank is not lawful. A lawful rank has a
/// king, a queen and two rooks, knights and bishops, the king between the rooks and the bishops on squares of
/// opposite colour (Guidelines II.2).
pub fn number_of(rank: [Kind; 8]) -> Option<u16>
    ensures some { IfSome result (λ n. (n < STARTS) × (array n ≡ rank)) }
    ensures none { IsNone result ↔ (IsLawfulRank rank → ⊥) }
    ensures only { (n : ℕ) → n < STARTS → array n ≡ rank → result ≡ Some n }
{
    for number in 0..STARTS {
        if is_rank(number, &rank) {
            return Some(number);
        }
    }
    None
}
