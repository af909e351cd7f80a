//! Writing the text of a position, field by field. Each function appends to a text that has room for it.

ghost use Rattle.std.specs.Prelude.{◌≡◌, ◌≤◌, ◌<◌, ◌+◌, ◌++◌, length, take, decimal};
ghost use Rattle.arrayvec.specs.ArrayVec.{array_vec_len};
ghost use Rattle.c960_board.specs.Fen.Canonical.{canonical, ranks_text, rights_text, side_text, squares_text};
ghost use Rattle.c960_board.specs.Fen.Letters.{right_base, turn_text};
ghost use Rattle.c960_board.specs.Fen.RankCells.{rank_cells};
ghost use Rattle.c960_board.specs.Fen.Target.{target_text};
ghost use Rattle.c960_board.specs.Sets.{cells_of, parts_of};
ghost use Rattle.c960_board.specs.Inner.PieceLetters.{AreLettersOf, letter_in};
ghost use Rattle.c960_board.specs.Inner.RankShape.{digits_text, place_of, with_letters};

use crate::fen::bytes::{FenBytes, TextBytes};
use crate::fen::files::occupied_files;
use crate::fen::letters::{Letters, RankLetters};
use crate::fen::shape::{LetterPlaces, digits_text, text_length};
use crate::piece::Colour;
use crate::position::Position;
use crate::rights::CastlingRights;
use crate::sets::Sets;
use crate::square::Square;
use crate::square_text::square_bytes;
use arrayvec::ArrayVec;
use itoa::Buffer;

/// The room in which a placement is written: 64 squares and 7 slashes at most, and nine bytes more. So a rank that begins anywhere in
/// those 71 has room for eight digits and a letter behind them.
const PLACEMENT_ROOM: usize = 80;

/// Appends bytes.
fn append(text: &mut TextBytes, bytes: &[u8])
    requires { array_vec_len text.old + length bytes.now ≤ 93 }
    ensures text { text.new.items ≡ text.old.items ++ bytes.now }
    ensures len { array_vec_len text.new ≡ array_vec_len text.old + length bytes.now }
{
    // It returns `Err` only if there is no room.
    let _ = text.try_extend_from_slice(bytes);
}

/// Writes the digits of a rank's text at their places. The bytes between them and behind the text mean nothing.
#[inline(always)]
fn write_digits(bytes: &mut [u8; PLACEMENT_ROOM], at: usize, files: u64)
    requires files { files < 256 }
    requires room { at + 8 < PLACEMENT_ROOM }
    ensures { take (at + 8) bytes.new ≡ take at bytes.old ++ digits_text files }
{
    bytes[at..at + 8].copy_from_slice(&digits_text(files));
}

/// Writes the letters of a rank's text at their places. For a vacant square there is no letter in the text: what is written for it stands
/// behind the text, and means nothing. A test whether the square is occupied would be a likely branch misprediction.
#[inline(always)]
fn write_letters(bytes: &mut [u8; PLACEMENT_ROOM], at: usize, files: u64, pieces: &RankLetters)
    requires files { files < 256 }
    requires room { at + 8 < PLACEMENT_ROOM }
    ensures { bytes.new ≡ with_letters (place_of files) (letter_in pieces.now) at 8 bytes.old }
{
    let places = LetterPlaces::of(files);
    for file in 0..8u8 {
        bytes[at + places.place(file)] = pieces.on(file);
    }
}

/// Writes the squares of a rank, from file a to file h, and returns the end of the text. Rank 0 is the first. Where the digits and the
/// letters stand depends on the occupied files alone, and is looked up.
#[inline(always)]
fn write_rank(
    bytes: &mut [u8; PLACEMENT_ROOM],
    at: usize,
    sets: &Sets,
    letters: &Letters,
    rank: u8,
) -> usize
    requires on_board { rank < 8 }
    requires letters { AreLettersOf sets.now letters.now }
    requires room { at + length (squares_text (rank_cells sets.now rank) 0) < 72 }
    ensures end { result ≡ at + length (squares_text (rank_cells sets.now rank) 0) }
    ensures text { take result bytes.new ≡ take at bytes.old ++ squares_text (rank_cells sets.now rank) 0 }
{
    let pieces = letters.rank(rank);
    let files = occupied_files(sets, rank);
    write_digits(bytes, at, files);
    write_letters(bytes, at, files, &pieces);
    at + text_length(files)
}

/// Appends the ranks from the eighth to the first, separated by slashes. They are written into an array first, whose end is a local number:
/// bytes appended to the text would each wait for the length that the one before stored.
fn write_placement(text: &mut TextBytes, sets: &Sets)
    requires { array_vec_len text.old + length (ranks_text 7 (cells_of sets.now)) ≤ 93 }
    ensures text { text.new.items ≡ text.old.items ++ ranks_text 7 (cells_of sets.now) }
    ensures len { array_vec_len text.new ≡ array_vec_len text.old + length (ranks_text 7 (cells_of sets.now)) }
{
    let letters = Letters::of(sets);
    let mut bytes = [0; PLACEMENT_ROOM];
    let mut end = 0;
    for rank in (1..8).rev() {
        end = write_rank(&mut bytes, end, sets, &letters, rank);
        bytes[end] = b'/';
        end += 1;
    }
    end = write_rank(&mut bytes, end, sets, &letters, 0);
    append(text, &bytes[..end]);
}

/// Appends the letter of the side to move.
fn write_turn(text: &mut TextBytes, turn: Colour)
    requires { array_vec_len text.old + length (turn_text turn) ≤ 93 }
    ensures text { text.new.items ≡ text.old.items ++ turn_text turn }
    ensures len { array_vec_len text.new ≡ array_vec_len text.old + length (turn_text turn) }
{
    text.push(match turn {
        Colour::White => b'w',
        Colour::Black => b'b',
    });
}

/// The letter of file a among a side's rights.
fn first_letter(colour: Colour) -> u8
    ensures value { result ≡ right_base colour }
    ensures bound { result ≤ 97 }
{
    match colour {
        Colour::White => b'A',
        Colour::Black => b'a',
    }
}

/// Appends the letters of a side's rights, the higher file first.
#[tactic(auto, using(crate::proofs::Written::Steps::side_text_without))]
fn write_side(text: &mut TextBytes, rights: &CastlingRights, colour: Colour)
    requires { array_vec_len text.old + length (side_text rights.now colour 8) ≤ 93 }
    ensures { text.new.items ≡ text.old.items ++ side_text rights.now colour 8 }
{
    for file in (0..8).rev() {
        if rights.has(colour, file) {
            text.push(first_letter(colour) + file);
        }
    }
}

/// Appends White's rights and then Black's, or a dash if there are none.
#[tactic(auto, using(crate::proofs::Written::Steps::sides_length))]
fn write_rights(text: &mut TextBytes, rights: &CastlingRights)
    requires { array_vec_len text.old + length (rights_text rights.now) ≤ 93 }
    ensures text { text.new.items ≡ text.old.items ++ rights_text rights.now }
    ensures len { array_vec_len text.new ≡ array_vec_len text.old + length (rights_text rights.now) }
{
    let before = text.len();
    write_side(text, rights, Colour::White);
    write_side(text, rights, Colour::Black);
    if text.len() == before {
        text.push(b'-');
    }
}

/// Appends the target's square, or a dash for none.
fn write_target(text: &mut TextBytes, target: Option<Square>)
    requires { array_vec_len text.old + length (target_text target) ≤ 93 }
    ensures text { text.new.items ≡ text.old.items ++ target_text target }
    ensures len { array_vec_len text.new ≡ array_vec_len text.old + length (target_text target) }
{
    match target {
        Some(square) => {
            let [file, rank] = square_bytes(square);
            text.push(file);
            text.push(rank);
        }
        None => text.push(b'-'),
    }
}

/// Appends a number in decimal. One of a single digit, as the half-move counter nearly always is, is written without the formatter, which
/// clears a buffer that is long enough for the longest number.
#[tactic(auto, using(std::proofs::lemmas::Fmt::decimal_digit))]
fn write_number(text: &mut TextBytes, number: u16)
    requires { array_vec_len text.old + length (decimal number) ≤ 93 }
    ensures text { text.new.items ≡ text.old.items ++ decimal number }
    ensures len { array_vec_len text.new ≡ array_vec_len text.old + length (decimal number) }
{
    if number < 10 {
        text.push(b'0' + number as u8);
        return;
    }
    let mut buffer = Buffer::new();
    append(text, buffer.format(number).as_bytes());
}

/// The fields of a position's text, separated by spaces.
fn fields(
    sets: &Sets,
    turn: Colour,
    rights: &CastlingRights,
    target: Option<Square>,
    half_moves: u16,
    number: u16,
) -> TextBytes
    requires { length (ranks_text 7 (cells_of sets.now)) + length (turn_text turn) + length (rights_text rights.now)
        + length (target_text target) + length (decimal half_moves) + length (decimal number) + 5 ≤ 93 }
    ensures { result.items ≡ canonical (parts_of sets.now turn rights.now target half_moves number) }
{
    let mut text = ArrayVec::new();
    write_placement(&mut text, sets);
    text.push(b' ');
    write_turn(&mut text, turn);
    text.push(b' ');
    write_rights(&mut text, rights);
    text.push(b' ');
    write_target(&mut text, target);
    text.push(b' ');
    write_number(&mut text, half_moves);
    text.push(b' ');
    write_number(&mut text, number);
    text
}

/// The text of the position in Shredder-FEN: the placement from rank 8 to rank 1, the side to move, the castling
/// rights, the en passant target, the half-move counter and the move number. A right is the letter of its rook's file,
/// a capital for White. White's rights come before Black's, and of a side's two rights the higher file is first.
pub fn write_fen(position: &Position) -> FenBytes
    ensures { result ≡ canonical position.now }
{
    let sets = position.sets();
    let rights = position.rights();
    FenBytes::new(fields(
        &sets,
        position.turn(),
        &rights,
        position.target(),
        position.half_moves(),
        position.number(),
    ))
}
