//! The worked examples of the moves' codes and texts.

use crate::tests::claims::{claim, claim_at, claim_of};
use c960_board::{Move, MoveFault, move_bytes, read_move};

/// Whether a move has this text and this code.
fn is_coded(text: &[u8], code: u64) -> bool {
    match read_move(text) {
        Ok(m) => m.code() == code && move_bytes(m).as_slice() == text,
        Err(_) => false,
    }
}

#[test]
fn the_codes_and_texts_of_two_moves(rt: HostRuntime) {
    claim(&rt, is_coded(b"e2e4", 1804), "e2e4");
    claim(&rt, is_coded(b"a7a8q", 20016), "a7a8q");
}

/// Whether the move of a code is read back from the code and from its text.
fn comes_back(code: u64) -> bool {
    match Move::of_code(code) {
        Some(m) => m.code() == code && read_move(move_bytes(m).as_slice()) == Ok(m),
        None => false,
    }
}

#[test]
fn every_move_comes_back_from_its_code_and_its_text(rt: HostRuntime) {
    for code in 0..20480 {
        claim_at(&rt, comes_back(code), "code", code);
    }
}

#[test]
fn no_move_has_a_code_from_20480_on(rt: HostRuntime) {
    claim(&rt, Move::of_code(20480).is_none(), "20480");
    claim(&rt, Move::of_code(u64::MAX).is_none(), "the largest number");
}

/// Texts that are not moves, each with its first fault.
static REFUSED: [(&str, MoveFault); 11] = [
    ("", MoveFault::Length),
    ("e2", MoveFault::Length),
    ("e2e4qq", MoveFault::Length),
    ("i2e4", MoveFault::Square),
    ("e9e4", MoveFault::Square),
    ("e2e0", MoveFault::Square),
    ("E2E4", MoveFault::Square),
    ("i2e4k", MoveFault::Square),
    ("e7e8k", MoveFault::Promotion),
    ("e7e8p", MoveFault::Promotion),
    ("e7e8Q", MoveFault::Promotion),
];

/// The texts and their faults.
fn refused() -> &'static [(&'static str, MoveFault)] {
    &REFUSED
}

#[test]
fn the_first_fault_of_each_text(rt: HostRuntime) {
    for (text, fault) in refused() {
        let read = read_move(text.as_bytes());
        claim_of(&rt, read == Err(*fault), "the fault", *text);
    }
}

/// Whether a fault has this code and this name.
fn is_named(fault: MoveFault, code: u64, name: &str) -> bool {
    fault.code() == code && fault.name() == name
}

#[test]
fn the_codes_and_names_of_the_faults(rt: HostRuntime) {
    for (fault, code, name) in [
        (MoveFault::Length, 1, "Length"),
        (MoveFault::Square, 2, "Square"),
        (MoveFault::Promotion, 3, "Promotion"),
    ] {
        claim(&rt, is_named(fault, code, name), name);
    }
}
