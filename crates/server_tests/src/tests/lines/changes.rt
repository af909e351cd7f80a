//! What is read of a file that was changed.

use super::files::{ENDS, LAST_WRITE, end_of, file, flip, whole_lines};
use crate::tests::claims::{claim, claim_at};
use crate::tests::parts::{behind, front};
use chained_lines::{NO_SEAL, Seal, later_write, put_line, sound_part};
use std::alloc::Global;
use std::process::Abort;

/// The file, by another program: Python's hashlib, with each seal over the seal before, the mark and the body.
const BY_ANOTHER_PROGRAM: &[u8] =
    b"64391b373d4b4969>one\n738a96e38e845f2c>two, longer\n86ea597a6c791190 \n9274954248bd7668>four\n";

/// Lines by their numbers: from 0 those of the file, from 4 those of another; how many of them count; and whether what stands behind these
/// is taken for damage. It is not where it might be a last write.
#[derive(Clone, Copy)]
struct Row {
    lines: &'static [usize],
    sound: usize,
    is_damage: bool,
}

/// Lines that are swapped, left out, doubled, and of another file.
fn rows() -> [Row; 12] {
    [
        read_as(&[0, 1, 2, 3], 4, false),
        read_as(&[4, 5, 6, 7], 4, false),
        read_as(&[1, 0, 2, 3], 0, true),
        read_as(&[0, 2, 1, 3], 1, true),
        read_as(&[1, 2, 3], 0, true),
        read_as(&[0, 2, 3], 1, true),
        read_as(&[0, 1, 3], 2, false),
        read_as(&[0, 0, 1], 1, true),
        read_as(&[0, 1, 2, 2, 3], 3, true),
        read_as(&[0, 1, 2, 3, 3], 4, false),
        read_as(&[0, 5, 6, 7], 1, true),
        read_as(&[0, 1, 2, 7], 3, false),
    ]
}

fn read_as(lines: &'static [usize], sound: usize, is_damage: bool) -> Row {
    Row {
        lines,
        sound,
        is_damage,
    }
}

/// Another file with lines as long as those of the file, and the same marks.
fn another(rt: &impl Abort, alloc: Global) -> Vec<u8> {
    let mut text = Vec::new(alloc);
    let mut seal: Seal = NO_SEAL;
    let bodies: [(bool, &[u8]); 4] = [
        (true, b"uno"),
        (true, b"dos, longer"),
        (false, b""),
        (true, b"five"),
    ];
    for (is_first, body) in bodies {
        seal = put_line(&mut text, &seal, is_first, body).expect(rt, "memory");
    }
    text
}

/// A line of a file by its number.
fn line(file: &[u8], number: usize) -> &[u8] {
    match ENDS.get(number) {
        Some(end) => behind(front(file, *end), end_of(number)),
        None => front(file, 0),
    }
}

/// These lines of a file and of another, one after another.
fn joined(rt: &impl Abort, alloc: Global, file: &[u8], another: &[u8], lines: &[usize]) -> Vec<u8> {
    let mut text = Vec::new(alloc);
    for number in lines {
        let part = if *number < 4 {
            line(file, *number)
        } else {
            line(another, *number - 4)
        };
        text.extend_from_slice(part).expect(rt, "memory");
    }
    text
}

/// How many lines count, and whether what stands behind them is taken for damage.
fn looked_at(text: &[u8]) -> (usize, bool) {
    let part = sound_part(text);
    (part.lines, later_write(behind(text, part.bytes)).is_some())
}

// The file is what another program makes of its lines.
#[test]
fn the_file_is_as_another_program_makes_it(rt: HostRuntime) {
    let is_same = file(rt.alloc()).as_slice() == BY_ANOTHER_PROGRAM;
    claim(&rt, is_same, "the file");
}

// Each byte that is changed ends what is read at its line. Unless it is in the last write, or the line feed before that, this is taken for
// damage.
#[test]
fn each_change_is_seen(rt: HostRuntime) {
    let alloc = rt.alloc();
    for at in 0..ENDS[3] {
        let mut other = file(alloc);
        flip(&mut other, at);
        let seen = looked_at(&other) == (whole_lines(at), at + 1 < LAST_WRITE);
        claim_at(&rt, seen, "a change at", at);
    }
}

// Lines that are swapped, left out, doubled, or of another file end what is read.
#[test]
fn each_line_has_its_place(rt: HostRuntime) {
    let alloc = rt.alloc();
    let file = file(alloc);
    let another = another(&rt, alloc);
    for (number, row) in rows().iter().enumerate() {
        let text = joined(&rt, alloc, &file, &another, row.lines);
        let is_so = looked_at(&text) == (row.sound, row.is_damage);
        claim_at(&rt, is_so, "row", number);
    }
}

/// Whether damage is found there: at this line, and at this byte.
fn is_found(text: &[u8], line: usize, byte: usize) -> bool {
    match later_write(text) {
        Some(found) => found.line == line && found.byte == byte,
        None => false,
    }
}

// Where damage is found: the line feeds and the bytes before the line with the mark.
#[test]
fn damage_has_a_place(rt: HostRuntime) {
    let mut text = file(rt.alloc());
    flip(&mut text, 3);
    claim(&rt, is_found(&text, 1, 21), "the line behind the first");
    flip(&mut text, 37);
    claim(&rt, is_found(&text, 3, LAST_WRITE), "the last line");
}
