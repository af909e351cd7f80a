//! A file on a disk that keeps lines.

ghost use Rattle.std.specs.Prelude.{◌≡◌, ◌≤◌, ◌-◌, nat_le, None};

use crate::stable_storage::StableStorage;
use std::fs::File;
use std::io;
use std::io::ErrorKind;
use std::marker::Model;
use std::os::unix::fs::FileExt;

/// With fewer bytes of zeros than these behind what was written more are put there.
const LEAST_ROOM_BYTES: u64 = 32_768;

/// How many bytes of zeros are written at a time, and how often at once.
const ZEROS: [u8; 4096] = [0; 4096];

const PIECES: u32 = 16;

/// A file, and zeros behind what was written to it: so a disk that is full is noticed while there is room for what goes on, and a sync need
/// not write how long the file is. As of std's files, nothing is claimed of its bytes: that the system's files are stable storage is
/// trusted.
#[derive(Drop)]
pub struct StableFile {
    file: File,
    /// How many bytes were written.
    written: u64,
    /// How many bytes it has: those, and then zeros.
    len: u64,
    /// Whether there were zeros enough when it was opened, or the disk had room for them when they were put there last.
    has_room: bool,
}

impl Model for StableFile {
    ghost use Rattle.chained_lines.specs.Records.{StableFileRecord};

    ghost Value = { StableFileRecord };

    ghost view = { λ f. record { written = f.written; length = f.len; has_room = f.has_room } };
}

impl StableFile {
    /// A file that can be written, of which so many bytes are kept, and which has `len` bytes: all others are zeros.
    pub fn behind(file: File, kept: u64, len: u64) -> StableFile
        ensures { result ≡ record { written = kept; length = len; has_room = nat_le 32768 (len - kept) } }
    {
        StableFile {
            file,
            written: kept,
            len,
            has_room: len.saturating_sub(kept) >= LEAST_ROOM_BYTES,
        }
    }

    /// How many bytes of zeros stand behind what was written.
    fn room(&self) -> u64
        ensures { result ≡ self.now.length - self.now.written }
    {
        self.len.saturating_sub(self.written)
    }

    /// Puts zeros behind what it has, as far as the disk has room for them. Returns how many.
    fn zeros(&self) -> u64 {
        let mut put: u64 = 0;
        for _ in 0..PIECES {
            let Ok(n) = self.file.write_at(&ZEROS, self.len.saturating_add(put)) else {
                break;
            };
            put = put.saturating_add(n as u64);
        }
        put
    }

    /// Puts zeros behind what was written, if there are few.
    fn reserve(&mut self)
        ensures written { self.new.written ≡ self.old.written }
        ensures length { self.old.length ≤ self.new.length }
        ensures room { self.new.has_room ≡ nat_le 32768 (self.new.length - self.new.written) }
    {
        if self.room() < LEAST_ROOM_BYTES {
            self.len = self.len.max(self.written);
            self.len = self.len.saturating_add(self.zeros());
        }
        self.has_room = self.room() >= LEAST_ROOM_BYTES;
    }
}

impl StableStorage for StableFile {
    ghost contents = { λ _. None };

    ghost synced = { λ _. 0 };

    ghost failures = { λ _. None };

    fn append(&mut self, bytes: &[u8]) -> io::Result<usize> {
        for _ in 0..u64::MAX {
            match self.file.write_at(bytes, self.written) {
                Err(error) if error.kind() == ErrorKind::Interrupted => {}
                Ok(n) => {
                    self.written = self.written.saturating_add(n as u64);
                    return Ok(n);
                }
                Err(error) => return Err(error),
            }
        }
        Err(io::Error::from(ErrorKind::Interrupted))
    }

    fn sync(&mut self) -> io::Result<()> {
        self.reserve();
        self.file.sync_data()
    }

    fn has_room(&self) -> bool {
        self.has_room || self.zeros() >= LEAST_ROOM_BYTES
    }
}
