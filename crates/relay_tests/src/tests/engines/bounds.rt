//! The line engine at bounds that no argument of the program sets, and the ranges of bounds.

use super::answerers::Lengths;
use crate::tests::claims::claim_of;
use relay960_engines::{Bounds, RunFault, ScriptLimits, default_limits, run_lines};
use std::alloc::Global;
use std::process::Abort;

/// An input, the most lines and bytes that it may have, how its run ends, and what is written.
type Row = (&'static str, u64, u64, Result<u64, RunFault>, &'static str);

static ROWS: [Row; 13] = [
    ("", 0, 0, Ok(0), ""),
    ("a", 0, 9, Err(RunFault::TooLong), ""),
    ("a", 9, 0, Err(RunFault::TooLong), ""),
    ("\n", 0, 9, Err(RunFault::TooLong), ""),
    ("a\nb\n", 2, 99, Ok(2), "1\n1\n"),
    ("a\nb", 2, 99, Ok(2), "1\n1\n"),
    ("a\nb\nc", 2, 99, Err(RunFault::TooLong), "1\n1\n"),
    ("a\nb\n\n", 2, 99, Err(RunFault::TooLong), "1\n1\n"),
    ("[]\n", 9, 3, Ok(1), "2\n"),
    ("[]\n[", 9, 3, Err(RunFault::TooLong), "2\n"),
    ("[]\n[", 9, 4, Ok(2), "2\n1\n"),
    ("[]\n[]", 9, 4, Err(RunFault::TooLong), "2\n"),
    ("[]\n[]", 1, 3, Err(RunFault::TooLong), "2\n"),
];

/// The rows.
fn rows() -> &'static [Row] {
    &ROWS
}

/// Whether the run of a row ends as it says.
fn ends(alloc: Global, row: &Row) -> bool {
    let (input, lines, bytes, ran, output) = *row;
    let mut reader = input.as_bytes();
    let mut writer = Vec::new(alloc);
    let mut lengths = Lengths { answers: 99 };
    let bounds = Bounds { lines, bytes };
    run_lines(alloc, &mut reader, &mut lengths, &mut writer, bounds) == ran
        && writer.as_slice() == output.as_bytes()
}

#[test]
fn one_byte_past_a_bound_is_too_long(rt: HostRuntime) {
    for row in rows() {
        claim_of(&rt, ends(rt.alloc(), row), "the run", row.0);
    }
}

/// Numbers of lines and of bytes, and whether they are bounds of a run.
const RANGES: [(u64, u64, bool); 6] = [
    (0, 1, false),
    (1, 0, false),
    (1, 1, true),
    (1_000_000, 1_073_741_824, true),
    (1_000_001, 1, false),
    (1, 1_073_741_825, false),
];

/// Whether these are bounds of a run, or are none, as it is said.
fn are_bounds(lines: u64, bytes: u64, good: bool) -> bool {
    match ScriptLimits::new(default_limits(), lines, bytes) {
        Some(limits) => good && limits.bounds() == Bounds { lines, bytes },
        None => !good,
    }
}

/// Asserts that these are bounds of a run, or are none, as it is said.
fn assert_bounds(rt: &impl Abort, lines: u64, bytes: u64, good: bool) {
    assert!(rt;
        are_bounds(lines, bytes, good),
        "{lines} lines, {bytes} bytes"
    );
}

#[test]
fn bounds_are_in_their_ranges(rt: HostRuntime) {
    for (lines, bytes, good) in RANGES {
        assert_bounds(&rt, lines, bytes, good);
    }
}
