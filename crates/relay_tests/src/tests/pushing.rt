//! What is sent to an outlet. The rows hold with ample memory, and if one allocation is refused, each in turn (`rt try --test
//! --fail-alloc N`): then pushing ends after the texts that were sent before.

use crate::list_outlet::ListOutlet;
use crate::tests::claims::{claim, claim_at};
use crate::tests::fakes::{Answers, Ringing};
use crate::tests::values::move_of;
use c960_game::Outcome;
use relay_core::Taken;
use relay_pushing::{PushEnd, SendFault, Source, push_all};
use std::alloc::Global;
use std::process::Abort;
use std::sync::Wait;

const FIRST: &[u8] = b"{\"move\":\"e2e4\",\"place\":0,\"reply\":\"move\"}";

const SECOND: &[u8] = b"{\"move\":\"e7e5\",\"place\":1,\"reply\":\"move\"}";

static TEXTS_OF_CUT: [&[u8]; 3] = [FIRST, SECOND, b"{\"reply\":\"cut\"}"];

static TEXTS_OF_OVER: [&[u8]; 3] = [
    FIRST,
    SECOND,
    b"{\"outcome\":\"agreed\",\"reply\":\"over\"}",
];

/// The texts of a follower that was closed.
fn texts_of_cut() -> &'static [&'static [u8]; 3] {
    &TEXTS_OF_CUT
}

/// The texts of a game that is over.
fn texts_of_over() -> &'static [&'static [u8]; 3] {
    &TEXTS_OF_OVER
}

const NO_MEMORY: PushEnd = PushEnd::Failed(SendFault::OutOfMemory);

pub const NO_DEVICE: PushEnd = PushEnd::Failed(SendFault::Device);

/// Asserts that the outlet has the first of these texts.
fn assert_first(rt: &impl Abort, outlet: &ListOutlet, wanted: &[&[u8]]) {
    claim(rt, outlet.texts.len() <= wanted.len(), "no text more");
    for i in 0..outlet.texts.len().min(wanted.len()) {
        let is_wanted = outlet.texts[i].as_slice() == wanted[i];
        claim(rt, is_wanted, "a text that was sent");
    }
}

/// What pushing did: how it ended, how many texts were sent, and how often the bell was waited for.
#[derive(Clone, Copy)]
struct Pushed {
    end: PushEnd,
    texts: usize,
    waits: u64,
}

/// Asserts that the outlet has the first of these texts, and that its device failed once if pushing ended for that, and else never.
fn assert_outlet(rt: &impl Abort, outlet: &ListOutlet, end: PushEnd, wanted: &[&[u8]]) {
    assert_first(rt, outlet, wanted);
    let failures = u64::from(end == NO_DEVICE);
    claim(rt, outlet.failures == failures, "the device's failures");
}

/// Pushes from a source to a device that takes so many texts and so many flushes. Asserts that the first of these texts were sent.
fn push_to<R: Wait + Abort, S: Source>(
    rt: &R,
    alloc: Global,
    source: &mut S,
    (room, flushes): (usize, usize),
    wanted: &[&[u8]],
) -> Pushed {
    let mut outlet = ListOutlet::new(alloc, room, flushes);
    let bell = Ringing::new();
    let end = push_all(rt, alloc, &mut outlet, source, &bell);
    assert_outlet(rt, &outlet, end, wanted);
    let texts = outlet.texts.len();
    drop(outlet);
    Pushed {
        end,
        texts,
        waits: bell.waits.get(),
    }
}

/// Asserts that pushing ended so, or that there was no memory.
fn assert_end(rt: &impl Abort, end: PushEnd, wanted: PushEnd) {
    assert!(rt;
        end == NO_MEMORY || end == wanted,
        "pushing ended by {end:?}, not by {wanted:?}"
    );
}

/// Asserts that these are the counts of texts, waits and answers that were not taken.
fn assert_counts(rt: &impl Abort, given: (usize, u64, usize), wanted: (usize, u64, usize)) {
    assert_eq!(rt; given, wanted);
}

/// Asserts that pushing goes on after the text that was lost, and sends the end again if that was lost.
fn assert_rest<R: Wait + Abort, S: Source>(rt: &R, alloc: Global, source: &mut S, sent: usize) {
    let rest = texts_of_cut().get(sent.saturating_add(1).min(2)..);
    let wanted = rest.expect(rt, "there is an end");
    let pushed = push_to(rt, alloc, source, (9, 9), wanted);
    claim(rt, pushed.end == PushEnd::Cut, "the rest is pushed");
    claim(rt, pushed.texts == wanted.len(), "each text");
}

/// Asserts that what a follower has that was closed at its capacity of 2 is pushed to a device that takes so many texts, that pushing ends
/// so, and that so many texts were sent; or, if memory was refused, that the rest is pushed afterwards.
pub fn assert_cut<R: Wait + Abort, S: Source>(
    rt: &R,
    alloc: Global,
    source: &mut S,
    room: usize,
    (wanted, texts): (PushEnd, usize),
) {
    let pushed = push_to(rt, alloc, source, (room, 9), texts_of_cut());
    claim(rt, pushed.waits == 0, "nothing is waited for");
    assert_end(rt, pushed.end, wanted);
    if pushed.end == NO_MEMORY {
        assert_rest(rt, alloc, source, pushed.texts);
    } else {
        claim_at(rt, pushed.texts == texts, "as many texts as", texts);
    }
}

/// What the device takes, texts and flushes; how pushing ends; and how many texts were sent, how often the bell was waited for, and
/// how many answers were not taken.
type Row = ((usize, usize), PushEnd, (usize, u64, usize));

static ROWS: [Row; 3] = [
    ((9, 9), PushEnd::Over(Outcome::Agreed), (3, 3, 0)),
    // The second text fails, and the second flush.
    ((1, 9), NO_DEVICE, (1, 3, 1)),
    ((9, 1), NO_DEVICE, (1, 1, 3)),
];

/// The rows.
fn rows() -> &'static [Row] {
    &ROWS
}

/// Asserts that these answers are pushed as a row says.
fn assert_pushed<R: Wait + Abort>(rt: &R, alloc: Global, answers: &[Taken], row: &Row) {
    let (device, wanted, counts) = *row;
    let mut source = Answers { rest: answers };
    let pushed = push_to(rt, alloc, &mut source, device, texts_of_over());
    assert_end(rt, pushed.end, wanted);
    let given = (pushed.texts, pushed.waits, source.rest.len());
    if pushed.end != NO_MEMORY {
        assert_counts(rt, given, counts);
    }
}

#[test]
fn nothing_is_waited_for_and_is_no_text(rt: HostRuntime) {
    let answers = [
        Taken::Nothing,
        Taken::Move(0, move_of(&rt, "e2e4")),
        Taken::Nothing,
        Taken::Nothing,
        Taken::Move(1, move_of(&rt, "e7e5")),
        Taken::Over(Outcome::Agreed),
    ];
    for row in rows() {
        assert_pushed(&rt, rt.alloc(), &answers, row);
    }
    let codes = (SendFault::Device.code(), SendFault::OutOfMemory.code());
    claim(&rt, codes == (41, 12), "the codes of faults");
}
