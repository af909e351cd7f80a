//! The first line of some bytes.

ghost use Rattle.std.specs.Prelude.{◌≡◌, ◌++◌, ◌∷◌, [], ◌+◌, None, length, IfSome};
ghost use Rattle.chained_lines.specs.Lines.{bytes_of, read_lines, seal_after};

use crate::seal::{SEAL_BYTES, Seal, seal_in};
use crate::splitting::split;

/// A line that counts, and what stands behind it.
#[derive(Clone, Copy)]
pub struct FirstLine<'a> {
    /// Its seal, which the next line is sealed behind.
    pub seal: Seal,
    /// Whether it is the first line of a write.
    pub is_first: bool,
    /// What it says.
    pub body: &'a [u8],
    /// The bytes behind its line feed.
    pub rest: &'a [u8],
}

/// The first line of some bytes, if it counts behind a line with the seal `before`: it ends in a line feed, and its seal and mark are
/// right.
pub fn first_line<'a>(before: &[u8], bytes: &'a [u8]) -> Option<FirstLine<'a>>
    ensures none { result ≡ None → read_lines before.now bytes.now ≡ [] }
    ensures some { IfSome result (λ f.
        read_lines before.now bytes.now ≡ record { is_first = f.is_first; body = f.body.now } ∷ read_lines f.seal f.rest.now) }
    ensures front { IfSome result (λ f.
        bytes.now ≡ bytes_of before.now (record { is_first = f.is_first; body = f.body.now }) ++ f.rest.now) }
    ensures seal { IfSome result (λ f. f.seal ≡ seal_after before.now (record { is_first = f.is_first; body = f.body.now })) }
    ensures size { IfSome result (λ f. length f.rest.now + 18 + length f.body.now ≡ length bytes.now) }
{
    let (text, rest) = split(bytes)?;
    let seal = seal_in(before, text)?;
    Some(FirstLine {
        seal,
        is_first: text[SEAL_BYTES] == b'>',
        body: &text[SEAL_BYTES + 1..],
        rest,
    })
}
