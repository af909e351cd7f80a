//! Keys, by which connections own boards together.

ghost use Rattle.std.specs.Prelude.{◌≡◌, ◌≤◌, IfSome, is_some, length};
ghost use Rattle.std.specs.List.{list_all};
ghost use Rattle.relay_core.specs.Name.{is_name_byte as is_in_keys};
ghost use Rattle.relay_hall.specs.Keys.{filled, is_key, same_key};

use std::marker::Model;

/// The least number of bytes of a key.
const LEAST_BYTES: usize = 16;

/// The greatest number of bytes of a key.
const MOST_BYTES: usize = 64;

/// A key: 16 to 64 bytes of `A` to `Z`, `a` to `z`, `0` to `9`, `_` and `-`. It has no `Debug`, so that no log shows it, and no `==`, since
/// only `is_same` may compare it. Contracts see its bytes padded with zeros, 64 in all; no byte of a key is zero.
#[derive(Clone, Copy)]
pub struct Key {
    bytes: [u8; 64],
}

impl Model for Key {
    ghost use Rattle.std.specs.Prelude.{ℕ, List};

    ghost Value = { List ℕ };

    ghost view = { λ k. k.bytes };

    ghost inverse = { λ bytes. record { bytes = bytes } };

    ghost inverse_ok = { λ k _ _. record { bytes = k.bytes } };
}

impl Key {
    /// The key that these bytes make, or None exactly if they make none.
    pub fn parse(text: &[u8]) -> Option<Key>
        ensures some { is_some result ≡ is_key text.now }
        ensures value { IfSome result (λ key. key ≡ filled text.now) }
    {
        if !is_key(text) {
            return None;
        }
        Some(Key {
            bytes: with_zeros(text),
        })
    }

    /// Its bytes, padded with zeros.
    pub fn bytes(&self) -> &[u8; 64]
        ensures { result.now ≡ self.now }
    {
        &self.bytes
    }

    /// Whether the keys are the same. All bytes are compared, wherever the first difference is, so that the time reveals nothing.
    pub(crate) fn is_same(&self, other: &Key) -> bool
        ensures { result ≡ same_key self.now other.now }
    {
        are_same(&self.bytes, &other.bytes)
    }
}

/// Whether the bytes are the same. The loop always goes over all of them, so that its time says nothing about where they differ. No
/// contract says so.
#[tactic(auto, using(crate::proofs::Owned::same_next, crate::proofs::Owned::all_of))]
fn are_same(mine: &[u8; 64], theirs: &[u8; 64]) -> bool
    ensures { result ≡ same_key mine.now theirs.now }
{
    let mut are_same = true;
    for at in 0..MOST_BYTES {
        are_same &= mine[at] == theirs[at];
    }
    are_same
}

/// The text, padded with zeros.
#[tactic(auto, using(crate::proofs::Owned::zeros_behind))]
fn with_zeros(text: &[u8]) -> [u8; 64]
    requires { length text.now ≤ 64 }
    ensures { result ≡ filled text.now }
{
    let mut bytes = [0; 64];
    bytes[..text.len()].copy_from_slice(text);
    bytes
}

/// Whether the text is a key.
fn is_key(text: &[u8]) -> bool
    ensures value { result ≡ is_key text.now }
{
    (LEAST_BYTES..=MOST_BYTES).contains(&text.len()) && are_key_bytes(text)
}

/// Whether each byte may occur in a key.
fn are_key_bytes(text: &[u8]) -> bool
    ensures value { result ≡ list_all is_in_keys text.now }
{
    text.iter().all(|&byte| is_key_byte(byte))
}

/// Whether the byte may occur in a key.
fn is_key_byte(byte: u8) -> bool
    ensures value { result ≡ is_in_keys byte }
{
    matches!(byte, b'A'..=b'Z' | b'a'..=b'z' | b'0'..=b'9' | b'_' | b'-')
}
