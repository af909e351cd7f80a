//! What has occurred.

use crate::tests::hall::room::room;
use std::alloc::Global;
use std::process::Abort;

/// How many words there may be.
const MOST: usize = 40;

/// What has occurred, each in a word.
#[derive(Drop)]
pub struct Seen {
    words: Vec<&'static str>,
}

impl Seen {
    /// Nothing, with room for all words.
    pub fn new(rt: &impl Abort, alloc: Global) -> Seen {
        Seen {
            words: room(rt, alloc, MOST),
        }
    }

    pub fn has(&self, word: &'static str) -> bool {
        self.words.contains(&word)
    }

    /// This has occurred.
    pub fn note(&mut self, word: &'static str) {
        if !self.has(word) && self.words.len() < self.words.capacity() {
            self.words.push_reserved(word);
        }
    }

    /// All that the other has seen.
    pub fn note_all(&mut self, other: &Seen) {
        for word in other.words.iter() {
            self.note(*word);
        }
    }
}
