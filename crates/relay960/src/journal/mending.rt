//! A journal whose end was cut short.

use crate::failure::Device;
use crate::journal::folder::sync_folder;
use crate::serving::ServeFault;
use std::alloc::{AllocError, Global};
use std::fs::{File, Files, OpenOptions};
use std::io;
use std::io::{ErrorKind, Read, Write};
use std::os::unix::fs::OpenOptionsExt;

/// How many files there may be at most in which bytes of one place are set aside: as many as writes there were cut short one after another.
const MOST_ASIDE: u32 = 1000;

/// Whether a file with this name has anything else than a beginning of these bytes. One that has not was left by a start that ended before
/// it had set all of them aside.
///
/// # Errors
///
/// As the system's own calls.
fn has_others<R: Files<File = File>>(
    rt: &R,
    alloc: Global,
    path: &str,
    bytes: &[u8],
) -> io::Result<bool> {
    let mut file = match File::open(rt, path) {
        Ok(file) => file,
        Err(error) if error.kind() == ErrorKind::NotFound => return Ok(false),
        Err(error) => return Err(error),
    };
    let mut found = Vec::new(alloc);
    file.read_to_end(&mut found)?;
    Ok(!bytes.starts_with(&found))
}

/// Keeps these bytes in a file of their own, which only its owner can read. Once it has returned no crash takes them away.
///
/// # Errors
///
/// As the system's own calls. A file with this name that has other bytes is left alone.
fn keep<R: Files<File = File>>(rt: &R, alloc: Global, path: &str, bytes: &[u8]) -> io::Result<()> {
    if has_others(rt, alloc, path, bytes)? {
        return Err(io::Error::from(ErrorKind::AlreadyExists));
    }
    let mut file = OpenOptions::new()
        .write(true)
        .create(true)
        .truncate(true)
        .mode(0o600)
        .open(rt, path)?;
    file.write_all(bytes)?;
    file.sync_all()?;
    sync_folder(rt, path)
}

/// The name of the file in which bytes are set aside that stood in a journal from this byte on: `FILE.torn-AT`, and behind so many others
/// with such names `FILE.torn-AT-2` and so on.
///
/// # Errors
///
/// There was no memory.
fn name_of(alloc: Global, path: &str, at: usize, others: u32) -> Result<String, AllocError> {
    if others == 0 {
        return format!(in alloc; "{path}.torn-{at}");
    }
    let nth = others.saturating_add(1);
    format!(in alloc; "{path}.torn-{at}-{nth}")
}

/// Keeps these bytes, which stood in a journal from this byte on, in a file of their own. Returns its name.
///
/// # Errors
///
/// As the system's own calls, or there was no memory, or as many files with such names have other bytes as there may be.
fn keep_aside<R: Files<File = File>>(
    rt: &R,
    alloc: Global,
    path: &str,
    at: usize,
    torn: &[u8],
) -> io::Result<String> {
    for others in 0..MOST_ASIDE {
        let aside = name_of(alloc, path, at, others)?;
        match keep(rt, alloc, aside.as_str(), torn) {
            Ok(()) => return Ok(aside),
            Err(error) if error.kind() == ErrorKind::AlreadyExists => {}
            Err(error) => return Err(error),
        }
    }
    Err(io::Error::from(ErrorKind::AlreadyExists))
}

/// Takes the bytes of a write that was cut short, which stand at the end of a journal from this byte on, out of it. They are kept in a file
/// of their own, and that is said on standard error.
///
/// # Errors
///
/// They could not be kept, or the journal could not be cut, or there was no memory.
pub(super) fn set_aside<'a, R: Files<File = File> + Eprint>(
    rt: &R,
    alloc: Global,
    path: &'a str,
    file: &File,
    at: usize,
    torn: &[u8],
) -> Result<(), ServeFault<'a>> {
    let aside = match keep_aside(rt, alloc, path, at, torn) {
        Ok(aside) => aside,
        Err(error) if error.kind() == ErrorKind::OutOfMemory => {
            return Err(ServeFault::OutOfMemory);
        }
        Err(reason) => return Err(ServeFault::unwritten(Device::TornPart(path, at), reason)),
    };
    let size = torn.len();
    // It is kept even if standard error is closed.
    let _ = eprintln!(rt; "{path}: torn at byte {at}: {size} bytes are set aside in {aside}");
    match cut(file, at) {
        Ok(()) => Ok(()),
        Err(reason) => Err(ServeFault::unwritten(Device::File(path), reason)),
    }
}

/// Cuts a file at this byte.
///
/// # Errors
///
/// As the system's own calls.
fn cut(file: &File, at: usize) -> io::Result<()> {
    file.set_len(at as u64)?;
    file.sync_all()
}
