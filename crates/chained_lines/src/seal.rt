//! Seals of lines, and the marks before their texts.

ghost use Rattle.std.specs.Prelude.{◌≡◌, ◌∷◌, take, is_some, IfSome};
ghost use Rattle.chained_lines.specs.Lines.{counts, is_mark as is_any_mark, mark_of, seal_of as seal_over};

use hex::encode_to_slice;
use sha2::{Digest, Sha256};

/// How many bytes a seal has.
pub const SEAL_BYTES: usize = 16;

/// The seal of a line: the first eight bytes of a SHA-256 digest (FIPS 180-4) in sixteen lower-case hexadecimal digits. The digest is
/// over the seal of the line before, the line's mark and its body.
pub type Seal = [u8; SEAL_BYTES];

/// What stands for the seal of a line before the first.
pub const NO_SEAL: Seal = [b'0'; SEAL_BYTES];

/// The mark of a line, which stands before its body: `>` for the first of a write, else a space.
pub(crate) fn mark_of(is_first: bool) -> u8
    ensures { result ≡ mark_of is_first }
{
    if is_first { b'>' } else { b' ' }
}

/// Whether a byte is a mark.
fn is_mark(byte: u8) -> bool
    ensures { result ≡ is_any_mark byte }
{
    byte == b'>' || byte == b' '
}

/// The seal of a mark and a body behind a line with the seal `before`.
pub(crate) fn seal_of(before: &[u8], mark: u8, body: &[u8]) -> Seal
    ensures { result ≡ seal_over before.now (mark ∷ body.now) }
{
    let mut hasher = Sha256::new();
    hasher.update(before);
    hasher.update([mark].as_slice());
    hasher.update(body);
    let digest = hasher.finalize();
    let mut seal = [0; SEAL_BYTES];
    let Ok(()) = encode_to_slice(&digest[..8], &mut seal) else {
        unreachable!();
    };
    seal
}

/// The seal in the text of a line, if the text has a mark behind its seal and is sealed behind a line with the seal `before`.
pub(crate) fn seal_in(before: &[u8], text: &[u8]) -> Option<Seal>
    ensures counts { is_some result ≡ counts before.now text.now }
    ensures seal { IfSome result (λ seal. seal ≡ take 16 text.now) }
{
    if text.len() <= SEAL_BYTES || !is_mark(text[SEAL_BYTES]) {
        return None;
    }
    let seal = seal_of(before, text[SEAL_BYTES], &text[SEAL_BYTES + 1..]);
    if seal.as_slice() == &text[..SEAL_BYTES] {
        Some(seal)
    } else {
        None
    }
}
