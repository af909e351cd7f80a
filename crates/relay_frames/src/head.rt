//! How far the head of a request has come (RFC 9112, section 2), in bytes that come bit by bit.

ghost use Rattle.std.specs.Prelude.{◌≡◌, length};
ghost use Rattle.relay_frames.specs.Heads.{EndsWithin, begins_blank, head_so_far_behind};

use crate::request::{MOST_HEAD_BYTES, end_of_head};
use crate::request_refusal::RequestRefusal;

/// How far the head has come that a connection begins with.
#[derive(Clone, Copy, Debug, PartialEq, Eq)]
pub enum HeadSoFar {
    /// More of it has to come.
    Part,
    /// It ends behind so many bytes.
    Whole(usize),
    /// It is refused before its end: it begins with an empty line, or has too many bytes.
    Refused(RequestRefusal),
}

/// How far the head has come that these bytes begin with. The first `seen` of them were looked at before, and were a part of it.
pub fn head_so_far(bytes: &[u8], seen: usize) -> HeadSoFar
    ensures value { result ≡ head_so_far_behind seen bytes.now }
    ensures within { EndsWithin (length bytes.now) result }
{
    // RFC 9112 (section 2.2) wants empty lines before a request to be skipped. The parser of this head would do so: it would find no head
    // in it, and read on without these bounds.
    if begins_blank(bytes) {
        return HeadSoFar::Refused(RequestRefusal::BadRequest);
    }
    match end_of_head(bytes, seen) {
        Some(end) => HeadSoFar::Whole(end),
        None if bytes.len() < MOST_HEAD_BYTES => HeadSoFar::Part,
        None => HeadSoFar::Refused(RequestRefusal::HeadTooLarge),
    }
}

/// Whether the bytes begin with an empty line.
fn begins_blank(bytes: &[u8]) -> bool
    ensures { result ≡ begins_blank bytes.now }
{
    matches!(bytes.first(), Some(b'\r' | b'\n'))
}
