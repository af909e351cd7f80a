//! A journal that is checked without serving.

use crate::failure::Device;
use crate::journal::contents::{Contents, contents_of, line_of, read_all};
use crate::journal::damage::JournalDamage;
use crate::journal::end::JournalEnd;
use crate::serving::{ServeFault, status_of_fault};
use c960_game::{Limits, MOST_BOARDS, MOST_PLIES};
use relay_hall::{Hall, Shown};
use relay_journal::{Unfit, replay};
use relay960_words::Status;
use std::alloc::Global;
use std::fs::{File, Files};
use std::io;
use std::io::Write;

/// Checks the journal with this path, and returns the status. Prints a line for each board, in the order of opening, and then one that says
/// how the journal ends:
///
/// ```text
/// board r1-12: start 518, plies 34, goes on
/// board r1-13: start 4, plies 61, white mates
/// whole
/// ```
///
/// or `torn at byte 312 (40 bytes)`, which the next start sets aside, or `damaged at line 5, byte 312; a later write begins at line 7, byte
/// 430`, and then the boards are those of the lines before. The status is `Done` for the first two, and `DeviceFailed` for a damaged
/// journal or for a file that cannot be read or is no journal.
///
/// The file is only read, and not locked, so it may be in use: then the last write may look torn.
pub fn check_journal<R: Files<File = File> + Print + Eprint>(
    rt: &R,
    alloc: Global,
    path: &str,
) -> Status {
    match check(rt, alloc, path) {
        Ok(status) => status,
        Err(fault) => status_of_fault(rt, fault),
    }
}

/// The same.
///
/// # Errors
///
/// The file could not be read, is no journal, or says what no relay has written; or the lines could not be written, or there was no memory.
fn check<'a, R: Files<File = File> + Print>(
    rt: &R,
    alloc: Global,
    path: &'a str,
) -> Result<Status, ServeFault<'a>> {
    let mut file = match File::open(rt, path) {
        Ok(file) => file,
        Err(reason) => return Err(ServeFault::of_file(path, reason)),
    };
    let bytes = read_all(alloc, path, &mut file)?;
    let contents = contents_of(alloc, path, &bytes)?;
    let hall = hall_of(alloc, path, &contents)?;
    let mut out = io::writer(rt);
    if let Err(reason) = print(&mut out, &hall, &contents) {
        return Err(ServeFault::unwritten(Device::Output, reason));
    }
    Ok(status_of(contents.end))
}

/// The hall with the boards that a journal leads to.
///
/// # Errors
///
/// No hall takes what a line says, or there was no memory.
fn hall_of<'a>(
    alloc: Global,
    path: &'a str,
    contents: &Contents<'_>,
) -> Result<Hall, ServeFault<'a>> {
    let Some(limits) = Limits::new(MOST_BOARDS, 1, 1, MOST_PLIES) else {
        unreachable!();
    };
    match replay(alloc, limits, &contents.entries) {
        Ok(hall) => Ok(hall),
        Err(Unfit::Refused(at)) => Err(ServeFault::damaged(
            path,
            JournalDamage::Refused(line_of(at)),
        )),
        Err(Unfit::OutOfMemory) => Err(ServeFault::OutOfMemory),
    }
}

/// Prints the lines of all boards, and how the journal ends.
///
/// # Errors
///
/// As the writer's.
fn print<W: Write>(out: &mut W, hall: &Hall, contents: &Contents<'_>) -> io::Result<()> {
    for at in 0..hall.len() {
        if let Some(shown) = hall.board(at) {
            print_board(out, &shown)?;
        }
    }
    writeln!(out, "{contents}")
}

/// Prints the line of a board.
///
/// # Errors
///
/// As the writer's.
fn print_board<W: Write>(out: &mut W, shown: &Shown<'_>) -> io::Result<()> {
    let state = match shown.outcome() {
        Some(outcome) => outcome.text(),
        None => "goes on",
    };
    writeln!(
        out,
        "board {}: start {}, plies {}, {state}",
        shown.name(),
        shown.start(),
        shown.plies()
    )
}

/// The status of a journal that ends in this way.
fn status_of(end: JournalEnd<'_>) -> Status {
    match end {
        JournalEnd::Whole | JournalEnd::Torn(_) => Status::Done,
        JournalEnd::Damaged(_) => Status::DeviceFailed,
    }
}
