//! A storage in memory.

ghost use Rattle.std.specs.Prelude.{None, Some};

use chained_lines::StableStorage;
use std::io;
use std::io::ErrorKind;

/// A storage in memory that takes its bytes piece by piece, fills up, and fails.
#[derive(Drop)]
pub struct Memory {
    /// What was written.
    pub bytes: Vec<u8>,
    /// How many bytes were there at the last sync.
    pub synced: usize,
    /// How many bytes it takes at most at once.
    pub piece: usize,
    /// How many bytes it has room for yet.
    pub room: usize,
    /// How many calls it answers yet before each fails.
    pub calls: usize,
}

impl StableStorage for Memory {
    ghost contents = { λ m. Some m.bytes.items };

    ghost synced = { λ m. m.synced };

    ghost failures = { λ _. None };

    fn append(&mut self, bytes: &[u8]) -> io::Result<usize> {
        count_call(&mut self.calls)?;
        let taken = bytes.len().min(self.piece).min(self.room);
        if taken == 0 {
            return Err(io::Error::from(ErrorKind::StorageFull));
        }
        if self.bytes.extend_from_slice(&bytes[..taken]).is_err() {
            return Err(io::Error::from(ErrorKind::OutOfMemory));
        }
        self.room -= taken;
        Ok(taken)
    }

    fn sync(&mut self) -> io::Result<()> {
        count_call(&mut self.calls)?;
        self.synced = self.synced.max(self.bytes.len());
        Ok(())
    }

    fn has_room(&self) -> bool {
        true
    }
}

/// Counts a call, or fails if none is answered any more.
fn count_call(calls: &mut usize) -> io::Result<()> {
    let Some(fewer) = calls.checked_sub(1) else {
        return Err(io::Error::from(ErrorKind::Other));
    };
    *calls = fewer;
    Ok(())
}
