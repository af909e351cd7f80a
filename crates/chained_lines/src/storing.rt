//! Writing all of some bytes, and syncing them.

ghost use Rattle.std.specs.Prelude.{◌≡◌, ◌≤◌, ℕ, length, take, None, OnErr, OnOk};
ghost use Rattle.std.specs.Io.KnownBytes.{Appends};
ghost use Rattle.chained_lines.specs.Storage.{Failed, FailedOrNot, IsSynced};

use crate::stable_storage::StableStorage;
use std::io;
use std::io::ErrorKind;

/// Writes the bytes until all are written or the storage fails. Returns how many it took, from the first on, and whether it failed.
fn append_all<S: StableStorage>(bytes: &[u8], storage: &mut S) -> (usize, io::Result<()>)
    ensures all { OnOk result.1 (result.0 ≡ length bytes.now) }
    ensures bytes { Appends (S.contents storage.old) (S.contents storage.new) (take result.0 bytes.now) }
    ensures synced { S.synced storage.old ≤ S.synced storage.new }
    ensures unknown { S.contents storage.old ≡ None → S.contents storage.new ≡ None }
    ensures later { FailedOrNot (S.failures storage.old) (S.failures storage.new) }
    ensures cause { OnErr result.1 (Failed (S.failures storage.old) (S.failures storage.new)) }
{
    let mut written = 0;
    while written < bytes.len() {
        match storage.append(&bytes[written..]) {
            Ok(0) => return (written, Err(io::Error::from(ErrorKind::WriteZero))),
            Ok(n) => written += n,
            Err(error) => return (written, Err(error)),
        }
    }
    (written, Ok(()))
}

/// Writes the bytes at the end of the storage, and syncs it.
///
/// # Errors
///
/// The storage failed. Some of the bytes may have been written.
pub(crate) fn store<S: StableStorage>(bytes: &[u8], storage: &mut S) -> io::Result<()>
    ensures front { (n : ℕ) × Appends (S.contents storage.old) (S.contents storage.new) (take n bytes.now) }
    ensures all { OnOk result (Appends (S.contents storage.old) (S.contents storage.new) bytes.now) }
    ensures durable { OnOk result (IsSynced (S.contents storage.new) (S.synced storage.new)) }
    ensures synced { S.synced storage.old ≤ S.synced storage.new }
    ensures unknown { S.contents storage.old ≡ None → S.contents storage.new ≡ None }
    ensures cause { OnErr result (Failed (S.failures storage.old) (S.failures storage.new)) }
{
    append_all(bytes, storage).1?;
    storage.sync()
}
