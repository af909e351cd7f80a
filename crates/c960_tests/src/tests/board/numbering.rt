//! Arrays and their start numbers.

use crate::tests::claims::{claim, claim_at};
use c960_board::Kind::{self, Bishop, King, Knight, Queen, Rook};
use c960_board::{arrangement, number_of};

/// Whether a number is read back from its array.
fn comes_back(number: u16) -> bool {
    match arrangement(number) {
        Some(rank) => number_of(rank) == Some(number),
        None => false,
    }
}

#[test]
fn each_number_comes_back_from_its_array(rt: HostRuntime) {
    for number in 0..960 {
        claim_at(&rt, comes_back(number), "at", u64::from(number));
    }
}

/// Whether a number and an array correspond.
fn is_numbered(number: u16, rank: [Kind; 8]) -> bool {
    arrangement(number) == Some(rank) && number_of(rank) == Some(number)
}

/// Arrays with their published numbers.
const PUBLISHED: [(u16, [Kind; 8]); 4] = [
    (0, [Bishop, Bishop, Queen, Knight, Knight, Rook, King, Rook]),
    (
        518,
        [Rook, Knight, Bishop, Queen, King, Bishop, Knight, Rook],
    ),
    (
        534,
        [Rook, Knight, Bishop, King, Queen, Bishop, Knight, Rook],
    ),
    (
        959,
        [Rook, King, Rook, Knight, Knight, Queen, Bishop, Bishop],
    ),
];

#[test]
fn arrays_have_their_published_numbers(rt: HostRuntime) {
    for (number, rank) in PUBLISHED {
        let is_so = is_numbered(number, rank);
        claim_at(&rt, is_so, "the array of", u64::from(number));
    }
}

#[test]
fn there_is_no_array_960(rt: HostRuntime) {
    claim(&rt, arrangement(960) == None, "no array");
}

#[test]
fn bishops_on_one_colour_have_no_number(rt: HostRuntime) {
    let rank = [Rook, Knight, Bishop, Queen, King, Knight, Bishop, Rook];
    claim(&rt, number_of(rank) == None, "no number");
}
