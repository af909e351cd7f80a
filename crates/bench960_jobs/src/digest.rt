//! A digest of results.

/// A number that depends on everything that was added, and on the order.
#[derive(Drop)]
pub struct Digest {
    value: u64,
}

impl Digest {
    pub fn new() -> Digest {
        Digest { value: 0 }
    }

    /// The digest of all that was added.
    pub fn value(&self) -> u64 {
        self.value
    }

    pub fn add(&mut self, word: u64) {
        self.value = (self.value.rotate_left(5) ^ word).wrapping_mul(0x9e37_79b9_7f4a_7c15);
    }

    /// Adds the bytes, eight at a time, and their number.
    pub fn add_bytes(&mut self, bytes: &[u8]) {
        for chunk in bytes.chunks(8) {
            self.add(word_of(chunk));
        }
        self.add(bytes.len() as u64);
    }
}

/// The bytes as one number: up to eight, which are mostly read at once.
fn word_of(bytes: &[u8]) -> u64 {
    match bytes.first_chunk::<8>() {
        Some(word) => u64::from_le_bytes(*word),
        None => word_of_few(bytes),
    }
}

/// Fewer than eight bytes as one number.
fn word_of_few(bytes: &[u8]) -> u64 {
    let mut word: u64 = 0;
    for byte in bytes {
        word = (word << 8) | u64::from(*byte);
    }
    word
}
