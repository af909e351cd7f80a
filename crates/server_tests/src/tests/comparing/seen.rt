//! What has occurred.

use crate::tests::claims::claim_at;
use std::process::Abort;

/// What is to occur among the answers: each accepted reply but those of a take and a leave, and each refusal that needs no other thread.
static WORDS: [&[u8]; 25] = [
    b"\"reply\":\"opened\"",
    b"\"outcome\":null,\"place\":0,\"reply\":\"played\"",
    b"\"outcome\":\"agreed\",\"reply\":\"ended\"",
    b"\"joined\":0,\"reply\":\"following\"",
    b"\"place\":0,\"reply\":\"move\"",
    b"\"outcome\":\"abandoned\",\"reply\":\"over\"",
    b"\"outcome\":\"agreed\",\"reply\":\"over\"",
    b"NoSuchBoard",
    b"BoardExists",
    b"BadStart",
    b"TooManyBoards",
    b"GameOver",
    b"Illegal",
    b"LogFull",
    b"ClaimRefused",
    b"NotYourBoard",
    b"WrongMode",
    b"TooFarBack",
    b"NotYet",
    b"NotJson",
    b"NotObject",
    b"UnknownCommand",
    b"BadField",
    b"opcode 138",
    b"close 1000",
];

/// Which of the words have occurred.
#[derive(Clone, Copy)]
pub struct Seen {
    has: [bool; 25],
}

fn words() -> &'static [&'static [u8]] {
    &WORDS
}

/// Whether these bytes occur among those.
fn occurs(word: &[u8], among: &[u8]) -> bool {
    for at in 0..among.len() {
        if among[at..].starts_with(word) {
            return true;
        }
    }
    false
}

impl Seen {
    pub fn new() -> Seen {
        Seen { has: [false; 25] }
    }

    /// Notes these lines.
    pub fn note(&mut self, told: &[u8]) {
        for (has, word) in self.has.iter_mut().zip(words()) {
            *has = *has || occurs(*word, told);
        }
    }

    /// All have occurred.
    pub fn assert_all(&self, rt: &impl Abort) {
        for (at, has) in self.has.iter().enumerate() {
            claim_at(rt, *has, "seen", at);
        }
    }
}
