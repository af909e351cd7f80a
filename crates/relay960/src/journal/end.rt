//! How a journal ends.

ghost use Rattle.std.specs.Prelude.{◌≡◌, ◌≤◌, length};
ghost use Rattle.relay960.specs.JournalEnds.{IsEnd, trimmed};

use chained_lines::{LaterWrite, later_write};

/// How a journal ends, by the bytes behind its lines that count.
#[derive(Clone, Copy)]
pub(super) enum JournalEnd<'a> {
    /// None stand there, or zeros, which are put there ahead of what will be written.
    Whole,
    /// These bytes of a write that was cut short. Nothing of it was ever answered.
    Torn(&'a [u8]),
    /// This line begins a later write. So bytes before it have changed that had been synced.
    Damaged(LaterWrite),
}

/// How a journal ends with these bytes behind its lines that count.
pub(super) fn end_of<'a>(rest: &'a [u8]) -> JournalEnd<'a>
    ensures { IsEnd rest.now result }
{
    let len = len_without_zeros(rest);
    if len == 0 {
        return JournalEnd::Whole;
    }
    match later_write(rest) {
        Some(later) => JournalEnd::Damaged(later),
        None => JournalEnd::Torn(&rest[..len]),
    }
}

/// How many bytes these are without the zeros at their end.
fn len_without_zeros(bytes: &[u8]) -> usize
    ensures len { result ≡ trimmed bytes.now (length bytes.now) }
    ensures within { result ≤ length bytes.now }
{
    let mut len = bytes.len();
    while len > 0 && bytes[len - 1] == 0 {
        len -= 1;
    }
    len
}
