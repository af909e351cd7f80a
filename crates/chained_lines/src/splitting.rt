//! The text before a line feed.

ghost use Rattle.std.specs.Prelude.{◌≡◌, ◌++◌, ◌∷◌, true, None, IfSome};
ghost use Rattle.chained_lines.specs.Lines.{has_no_feed};

use memchr::memchr;

/// The bytes before the first line feed, and those behind it, if there is one.
pub(crate) fn split<'a>(bytes: &'a [u8]) -> Option<(&'a [u8], &'a [u8])>
    ensures none { result ≡ None → has_no_feed bytes.now ≡ true }
    ensures some { IfSome result (λ parts. (has_no_feed parts.0.now ≡ true) × (bytes.now ≡ parts.0.now ++ 10 ∷ parts.1.now)) }
{
    let at = memchr(b'\n', bytes)?;
    Some((&bytes[..at], &bytes[at + 1..]))
}
