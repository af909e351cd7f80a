//! What is read of a file that was cut short.

use super::files::{ENDS, ample, end_of, file, whole_lines, written};
use crate::tests::claims::claim_at;
use crate::tests::parts::{behind, front};
use chained_lines::{later_write, sound_part};
use std::alloc::Global;
use std::process::Abort;

/// What may stand behind a cut: nothing, zeros, a part of a line, the rest of a line and a line, and lines of another file.
static BEHIND: [&[u8]; 5] = [
    b"",
    b"\0\0\0\0\0\0\0\0\0\0\0\0\0\0\0\0\0\0\0\0\0\0\0\0",
    b"0123456789abcdef>one",
    b"gest\n0123456789abcdef \n",
    b"0000000000000000>\n0000000000000000 one\n\n",
];

fn rests() -> &'static [&'static [u8]] {
    &BEHIND
}

/// Looks at what is left of a file: so many lines count, and what stands behind them is, or is not, taken for damage.
fn claim_left(rt: &impl Abort, left: &[u8], lines: usize, is_damage: bool, at: usize) {
    let part = sound_part(left);
    claim_at(rt, part.lines == lines, "lines at", at);
    let end = end_of(lines);
    claim_at(rt, part.bytes == end, "bytes at", at);
    let is_damaged = later_write(behind(left, end)).is_some();
    claim_at(rt, is_damaged == is_damage, "damage at", at);
}

// Each front of the file is read as its whole lines, whatever stands behind it.
#[test]
fn each_front_is_read(rt: HostRuntime) {
    let alloc = rt.alloc();
    let file = file(alloc);
    for cut in 0..=file.len() {
        for rest in rests() {
            let mut left = front(&file, cut).to_vec(alloc).expect(&rt, "memory");
            left.extend_from_slice(*rest).expect(&rt, "memory");
            claim_left(&rt, &left, whole_lines(cut), false, cut);
        }
    }
}

/// The file is made in pieces of so many bytes, and all of it is synced.
fn claim_pieces(rt: &impl Abort, alloc: Global, file: &[u8], piece: usize) {
    let (storage, done) = written(alloc, ample(alloc, piece));
    let is_same = storage.bytes.as_slice() == file && done == 3;
    claim_at(rt, is_same, "pieces of", piece);
    let is_synced = storage.synced == file.len();
    claim_at(rt, is_synced, "synced in pieces of", piece);
}

// The file is the same whether it is written in few pieces or in many, and all of it is synced.
#[test]
fn pieces_make_the_same_file(rt: HostRuntime) {
    let alloc = rt.alloc();
    let file = file(alloc);
    claim_at(&rt, file.len() == ENDS[3], "bytes of the file:", file.len());
    for piece in 1..30 {
        claim_pieces(&rt, alloc, &file, piece);
    }
}
