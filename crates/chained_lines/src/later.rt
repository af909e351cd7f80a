//! What tells damage from a write that was cut short.

ghost use Rattle.std.specs.Prelude.{◌≡◌};
ghost use Rattle.chained_lines.specs.Later.{begins_marked, later_write as later};

use crate::seal::SEAL_BYTES;
use crate::splitting::split;
use memchr::memchr;

/// Where a line begins in some bytes.
#[derive(Clone, Copy, Debug, PartialEq, Eq)]
pub struct LaterWrite {
    /// How many line feeds stand before it.
    pub line: usize,
    /// How many bytes stand before it.
    pub byte: usize,
}

/// The first line behind a line feed of these bytes that has the mark of the first line of a write.
///
/// A write is begun only once the one before it is synced. So if there is such a line behind the sound part of a file, what stands there
/// was not merely cut short: bytes that were synced have changed. The line's own seal is not tried, since the change may have taken the
/// seal that it stands behind.
pub fn later_write(bytes: &[u8]) -> Option<LaterWrite>
    ensures { result ≡ later bytes.now }
{
    let mut rest = bytes;
    let mut line = 0;
    while let Some((_, behind)) = split(rest) {
        rest = behind;
        line += 1;
        if is_marked(rest) {
            return Some(LaterWrite {
                line,
                byte: bytes.len() - rest.len(),
            });
        }
    }
    None
}

/// Whether these bytes begin with a seal's room and the mark of the first line of a write.
fn is_marked(bytes: &[u8]) -> bool
    ensures { result ≡ begins_marked bytes.now }
{
    if bytes.len() <= SEAL_BYTES {
        return false;
    }
    bytes[SEAL_BYTES] == b'>' && memchr(b'\n', &bytes[..SEAL_BYTES]).is_none()
}
