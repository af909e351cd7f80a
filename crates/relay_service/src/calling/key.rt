//! The key that a request names, and what stands for it.

ghost use Rattle.std.specs.Prelude.{◌≡◌, ◌≤◌, length, ◌==◌};
ghost use Rattle.std.specs.List.{position_or_len};
ghost use Rattle.relay_service.specs.Calling.Keys.{behind_first, digest_of, fields_of, first_key, in_front, key_in, key_of};

use hex::encode_to_slice;
use relay_hall::Key;
use sha2::{Digest, Sha256};

/// What stands for the key in the target of a request with this head (RFC 9112, section 3). The fields of its query come after the first
/// `?` and are separated by `&`. The key is the value of the first field that is `key=` followed by a key. Nothing else is looked at.
pub(crate) fn key_of(head: &[u8]) -> Option<Key>
    ensures { result ≡ key_of head.now }
{
    let target = in_front(b' ', behind_first(b' ', head));
    first_key(behind_first(b'?', target))
}

/// The bytes in front of the first of this value, or all.
fn in_front(byte: u8, bytes: &[u8]) -> &[u8]
    ensures { result.now ≡ in_front byte bytes.now }
{
    &bytes[..place_of(byte, bytes)]
}

/// The bytes behind the first of this value, or none.
fn behind_first(byte: u8, bytes: &[u8]) -> &[u8]
    ensures { result.now ≡ behind_first byte bytes.now }
{
    let at = place_of(byte, bytes);
    if at < bytes.len() {
        &bytes[at + 1..]
    } else {
        &[]
    }
}

/// The index of the first byte of this value, or the number of all bytes.
fn place_of(byte: u8, bytes: &[u8]) -> usize
    ensures value { result ≡ position_or_len (λ x. x == byte) bytes.now }
    ensures within { result ≤ length bytes.now }
{
    for at in 0..bytes.len() {
        if bytes[at] == byte {
            return at;
        }
    }
    bytes.len()
}

/// What stands for the first key that a field of this query gives.
fn first_key(query: &[u8]) -> Option<Key>
    ensures { result ≡ first_key (fields_of query.now) }
{
    let mut rest = query;
    'fields: loop {
        let field = in_front(b'&', rest);
        if let Some(key) = key_in(field) {
            return Some(key);
        }
        if field.len() >= rest.len() {
            return None;
        }
        rest = behind_first(b'&', rest);
    }
}

/// What stands for the key that this field gives.
fn key_in(field: &[u8]) -> Option<Key>
    ensures { result ≡ key_in field.now }
{
    if !field.starts_with(b"key=") {
        return None;
    }
    let text = &field[4..];
    Key::parse(text)?;
    Key::parse(&digest_of(text))
}

/// What stands for a key once its request is read: its SHA-256 digest (FIPS 180-4) in 64 lower-case hexadecimal digits. They are a key
/// themselves, but another one: whoever sees them cannot come with them.
fn digest_of(text: &[u8]) -> [u8; 64]
    ensures { result ≡ digest_of text.now }
{
    let mut digits = [0; 64];
    let Ok(()) = encode_to_slice(Sha256::digest(text).as_slice(), &mut digits) else {
        unreachable!();
    };
    digits
}
