//! The line engine and single lines over devices that fail once, by an error that the standard readers and writers retry or by taking no
//! byte: a run ends with the fault of the device that has failed, and of no other. Devices of the system are tried on the program.

use super::answerers::Lengths;
use super::counting::{CountingReader, CountingWriter, Failure};
use crate::tests::claims::claim_at;
use relay960_engines::{Bounds, RunFault, moves_run, run_lines, start_run};
use std::alloc::Global;
use std::process::Abort;

/// More bytes than any device here has left: one that is to fail at this number never does.
const NEVER: usize = 999;

/// The side not to move is in check.
const UNLAWFUL: &[u8] = b"4k3/4R3/8/8/8/8/8/4K3 w - - 0 1";

/// A position with two lines of an answer.
const STALEMATE: &[u8] = b"7k/5Q2/6K1/8/8/8/8/8 b - - 0 1";

/// Bounds that no test here reaches.
const WIDE: Bounds = Bounds {
    lines: 99,
    bytes: 99,
};

/// When a device fails: how many bytes it has left.
const PLACES: [usize; 6] = [0, 1, 3, 5, 7, NEVER];

/// How a writer fails.
const FAILURES: [Failure; 2] = [Failure::NoByte, Failure::Error];

/// A writer of this text that fails in this way when so many bytes are left.
fn writer_of<'a>(output: &'a [u8], good: usize, failure: Failure) -> CountingWriter<'a> {
    CountingWriter {
        rest: output,
        good,
        failure,
        has_failed: false,
        has_differed: false,
    }
}

/// Whether the run has ended with a device's fault exactly if that device has failed, and what was written is a prefix of the text, or all
/// of it.
fn is_told<T>(
    ran: &Result<T, RunFault>,
    has_read_failed: bool,
    writer: &CountingWriter<'_>,
) -> bool {
    let (reads, writes) = match ran {
        Ok(_) => (false, false),
        Err(fault) => (*fault == RunFault::Read, *fault == RunFault::Write),
    };
    reads == has_read_failed
        && writes == writer.has_failed
        && !writer.has_differed
        && (reads || writes || writer.rest.is_empty())
}

/// Whether a run over lines tells of its devices, which fail when so many bytes are left.
fn lines_are_told(alloc: Global, read: usize, write: usize, failure: Failure) -> bool {
    let mut reader = CountingReader {
        rest: b"ab\n\nefg",
        good: read,
        has_failed: false,
    };
    let mut writer = writer_of(b"2\n0\n3\n", write, failure);
    let mut lengths = Lengths { answers: 99 };
    let ran = run_lines(alloc, &mut reader, &mut lengths, &mut writer, WIDE);
    is_told(&ran, reader.has_failed, &writer)
}

/// Asserts that a run told of its devices, which fail when so many bytes are left.
fn assert_told(rt: &impl Abort, is_told: bool, read: usize, write: usize) {
    assert!(rt; is_told, "{read} and {write} bytes left");
}

#[test]
fn a_run_over_lines_tells_of_the_device_that_failed(rt: HostRuntime) {
    for failure in FAILURES {
        for read in PLACES {
            for write in PLACES {
                let is_told = lines_are_told(rt.alloc(), read, write, failure);
                assert_told(&rt, is_told, read, write);
            }
        }
    }
}

/// Whether the line of a start that does not exist tells of its writer.
fn start_is_told(write: usize, failure: Failure) -> bool {
    let mut writer = writer_of(b"refused 3 BadStart\n", write, failure);
    let ran = start_run(960, &mut writer);
    is_told(&ran, false, &writer)
}

/// Whether the lines of a position tell of their writer.
fn moves_are_told(
    alloc: Global,
    fen: &[u8],
    output: &[u8],
    write: usize,
    failure: Failure,
) -> bool {
    let mut writer = writer_of(output, write, failure);
    let ran = moves_run(alloc, fen, &mut writer);
    is_told(&ran, false, &writer)
}

#[test]
fn a_single_line_tells_of_the_writer_that_failed(rt: HostRuntime) {
    for failure in FAILURES {
        for write in PLACES {
            claim_at(&rt, start_is_told(write, failure), "start", write);
            let is_told = moves_are_told(rt.alloc(), UNLAWFUL, b"unlawful\n", write, failure);
            claim_at(&rt, is_told, "unlawful", write);
            let is_told = moves_are_told(rt.alloc(), STALEMATE, b"\nstalemate\n", write, failure);
            claim_at(&rt, is_told, "stalemate", write);
        }
    }
}
