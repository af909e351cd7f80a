//! Texts that are read and written back.

use crate::tests::claims::{claim, claim_at, claim_of};
use c960_board::{FenFault, Position, read_fen, write_fen};

/// Texts, each with the text that is written for its position.
static READ_AND_WRITTEN: &str = "\
rnbqkbnr/pppppppp/8/8/8/8/PPPPPPPP/RNBQKBNR w HAha - 0 1|rnbqkbnr/pppppppp/8/8/8/8/PPPPPPPP/RNBQKBNR w HAha - 0 1
rnbqkbnr/pppppppp/8/8/8/8/PPPPPPPP/RNBQKBNR w haHA - 0 1|rnbqkbnr/pppppppp/8/8/8/8/PPPPPPPP/RNBQKBNR w HAha - 0 1
bbqnnrkr/pppppppp/8/8/8/8/PPPPPPPP/BBQNNRKR w fhFH - 0 1|bbqnnrkr/pppppppp/8/8/8/8/PPPPPPPP/BBQNNRKR w HFhf - 0 1
rnbqkbnr/pppppppp/8/8/8/8/PPPPPPPP/RNBQKBNR w HAha - 65535 65535|rnbqkbnr/pppppppp/8/8/8/8/PPPPPPPP/RNBQKBNR w HAha - 65535 65535
4k3/8/8/4p3/8/8/8/4K3 w - e6 0 1|4k3/8/8/4p3/8/8/8/4K3 w - e6 0 1
rnbqkbnr/pppp1ppp/nnnn1nnn/nnnnpnnn/NNNNNNNN/NNNNNNNN/PPPPPPPP/RNBQKBNR w HAha e6 65535 65535|rnbqkbnr/pppp1ppp/nnnn1nnn/nnnnpnnn/NNNNNNNN/NNNNNNNN/PPPPPPPP/RNBQKBNR w HAha e6 65535 65535
1rqbkrbn/1ppppp1p/1n6/p1N3p1/8/2P4P/PP1PPPP1/1RQBKRBN w FBfb - 0 9|1rqbkrbn/1ppppp1p/1n6/p1N3p1/8/2P4P/PP1PPPP1/1RQBKRBN w FBfb - 0 9
4r1k1/8/8/8/8/6p1/6P1/5KRB w G - 0 1|4r1k1/8/8/8/8/6p1/6P1/5KRB w G - 0 1
";

/// The texts.
fn read_and_written() -> &'static str {
    READ_AND_WRITTEN
}

/// Whether the position of a row's text is written as its other text.
fn is_written_back(row: &str) -> bool {
    let Some((text, written)) = row.split_once('|') else {
        return false;
    };
    match read_fen(text.as_bytes()) {
        Ok(position) => write_fen(&position).as_slice() == written.as_bytes(),
        Err(_) => false,
    }
}

#[test]
fn texts_are_written_back(rt: HostRuntime) {
    claim(&rt, read_and_written().lines().count() == 8, "8 rows");
    for row in read_and_written().lines() {
        claim_of(&rt, is_written_back(row), "the text", row);
    }
}

/// Whether a start is read back from its text.
fn comes_back(number: u16) -> bool {
    match Position::start(number) {
        Some(start) => read_fen(write_fen(&start).as_slice()) == Ok(start),
        None => false,
    }
}

#[test]
fn every_start_is_read_from_its_text(rt: HostRuntime) {
    for number in 0..960 {
        claim_at(&rt, comes_back(number), "start", u64::from(number));
    }
}

/// Whether the start with a number is written as this text.
fn is_start(number: u16, text: &str) -> bool {
    match Position::start(number) {
        Some(start) => write_fen(&start).as_slice() == text.as_bytes(),
        None => false,
    }
}

/// Starts by their numbers, and their texts.
static STARTS: [(u16, &str); 3] = [
    (
        0,
        "bbqnnrkr/pppppppp/8/8/8/8/PPPPPPPP/BBQNNRKR w HFhf - 0 1",
    ),
    (
        518,
        "rnbqkbnr/pppppppp/8/8/8/8/PPPPPPPP/RNBQKBNR w HAha - 0 1",
    ),
    (
        959,
        "rkrnnqbb/pppppppp/8/8/8/8/PPPPPPPP/RKRNNQBB w CAca - 0 1",
    ),
];

/// The starts.
fn starts() -> &'static [(u16, &'static str)] {
    &STARTS
}

#[test]
fn the_starts_of_three_numbers(rt: HostRuntime) {
    for (number, text) in starts() {
        let is_so = is_start(*number, *text);
        claim_at(&rt, is_so, "start", u64::from(*number));
    }
}

/// Whether a fault has this code and this name.
fn is_named(fault: FenFault, code: u64, name: &str) -> bool {
    fault.code() == code && fault.name() == name
}

/// The faults, with their codes and names.
static FAULTS: [(FenFault, u64, &str); 6] = [
    (FenFault::Fields, 1, "Fields"),
    (FenFault::Placement, 2, "Placement"),
    (FenFault::Turn, 3, "Turn"),
    (FenFault::Castling, 4, "Castling"),
    (FenFault::EnPassant, 5, "EnPassant"),
    (FenFault::Counters, 6, "Counters"),
];

/// The faults.
fn faults() -> &'static [(FenFault, u64, &'static str)] {
    &FAULTS
}

#[test]
fn the_codes_and_names_of_the_faults(rt: HostRuntime) {
    for (fault, code, name) in faults() {
        claim(&rt, is_named(*fault, *code, *name), *name);
    }
}
