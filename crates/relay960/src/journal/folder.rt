//! The folder of a file.

use std::fs::{File, Files};
use std::io;
use std::path::Path;

/// Syncs the folder of this file, so that no crash takes the file's name away.
///
/// # Errors
///
/// As the system's own calls.
pub(super) fn sync_folder<R: Files<File = File>>(rt: &R, path: &str) -> io::Result<()> {
    let folder = match Path::new(path).parent() {
        Some(folder) => folder.as_str(),
        None => "",
    };
    let named = if folder.is_empty() { "." } else { folder };
    File::open(rt, named)?.sync_all()
}
