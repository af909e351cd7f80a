//! The ways in which a text is read, with the memory that each takes. They are tried in this order: usual, compact and plain objects, and
//! any other text. Where one allocation is refused, each in turn (`bench/refusals.py --tests`), a decoder answers the text that asked for
//! it with 12, and goes on. That list says which of these tests meets no refusal, and which meets more than one.

use crate::tests::claims::claim_of;
use crate::tests::relays::table::{Asked, line_of, step_of};
use c960_game::Ending;
use relay_core::Step;
use relay_messages::{Decoder, MessageFault, WatchCommand, decode};
use std::process::Abort;

/// A plain object, since it has two spaces where a compact one has one.
const PLAIN: &str = r#"{"cmd":  "take",  "spectator":  7}"#;

/// An object with a value that no plain one has, in the place of which a later one counts.
const OTHER: &str = r#"{"cmd":"take","spectator":[1],"spectator":7}"#;

/// The same two for a command of the watch port.
const PLAIN_BOARDS: &str = r#"{"cmd":  "boards"}"#;

const OTHER_BOARDS: &str = r#"{"cmd":[1],"cmd":"boards"}"#;

/// A usual text.
const TAKE: &str = r#"{"cmd":"take","spectator":7}"#;

/// How many of the texts below take no memory.
const FREE: usize = 16;

/// Texts, and the command that each gives or its fault.
static TEXTS: [(&str, Result<Asked, MessageFault>); 26] = [
    // Usual and compact ones.
    (r#"{"cmd":"take","spectator":7}"#, Ok(Asked::Take(7))),
    (r#"{"cmd": "leave", "spectator": 7}"#, Ok(Asked::Leave(7))),
    (
        r#"{"cmd":"submit","board":"b1","move":"e2e4"}"#,
        Ok(Asked::Submit("b1", "e2e4")),
    ),
    (
        r#"{"cmd":"follow","board":"b1","spectator":7}"#,
        Ok(Asked::Follow(7, "b1")),
    ),
    (
        r#"{"cmd":"follow","board":"b1","spectator":7,"from":2}"#,
        Ok(Asked::FollowFrom(7, "b1", 2)),
    ),
    (r#"{ "cmd": "take", "spectator": 7 }"#, Ok(Asked::Take(7))),
    // Compact alone: the keys stand in another order, or the command is another.
    (r#"{"spectator":7,"cmd":"take"}"#, Ok(Asked::Take(7))),
    (
        r#"{"cmd":"open","board":"b1","start":518}"#,
        Ok(Asked::Open("b1", 518)),
    ),
    (
        r#"{ "cmd": "open", "board": "b1", "start": 518 }"#,
        Ok(Asked::Open("b1", 518)),
    ),
    (
        r#"{"how": "agreed", "cmd": "end", "board": "b1"}"#,
        Ok(Asked::End("b1", Ending::Agreed)),
    ),
    // Those that are compact and no command.
    (r#"{"cmd":"pass"}"#, Err(MessageFault::UnknownCommand)),
    (r#"{"cmd":7}"#, Err(MessageFault::UnknownCommand)),
    (r#"{"cmd":"take"}"#, Err(MessageFault::BadField)),
    (
        r#"{"cmd":"take","spectator":"7"}"#,
        Err(MessageFault::BadField),
    ),
    (
        r#"{"cmd":"submit","board":"b1","move":4}"#,
        Err(MessageFault::BadField),
    ),
    (
        r#"{"cmd":"take","spectator":4294967296}"#,
        Err(MessageFault::BadField),
    ),
    // Some of all kinds.
    (TAKE, Ok(Asked::Take(7))),
    // A longer text, with escapes.
    (
        r#"{"cmd":"open","\u0062oard":"b\u0031","start":518}"#,
        Ok(Asked::Open("b1", 518)),
    ),
    // Objects that are not plain.
    (
        r#"{"cmd":"take","spectator":1,"spectator":2}"#,
        Ok(Asked::Take(2)),
    ),
    (
        r#"{"cmd":"take","spectator":[7]}"#,
        Err(MessageFault::BadField),
    ),
    (
        r#"{"cmd":"take","spectator":-7}"#,
        Err(MessageFault::BadField),
    ),
    (
        r#"{"cmd":"take","spectator":7} {"#,
        Err(MessageFault::NotJson),
    ),
    (r#"{"cmd":"take","spectator":7"#, Err(MessageFault::NotJson)),
    ("7", Err(MessageFault::NotObject)),
    ("", Err(MessageFault::NotJson)),
    (TAKE, Ok(Asked::Take(7))),
];

/// The texts.
fn texts() -> &'static [(&'static str, Result<Asked, MessageFault>); 26] {
    &TEXTS
}

/// What is to be read from a text.
fn wanted_of(rt: &impl Abort, read: Result<Asked, MessageFault>) -> Result<Step, MessageFault> {
    match read {
        Ok(asked) => Ok(step_of(rt, asked, line_of(asked))),
        Err(fault) => Err(fault),
    }
}

/// What a text asks for on the main port. Whoever calls this carries no clauses of a decoder along.
pub fn said_on_main(decoder: &mut Decoder, text: &[u8]) -> Result<Step, MessageFault> {
    decoder.decode(text)
}

/// The same on the watch port.
pub fn said_on_watch(decoder: &mut Decoder, text: &[u8]) -> Result<WatchCommand, MessageFault> {
    decoder.decode_watch(text)
}

/// Whether a text is read so on both ports.
fn is_read(decoder: &mut Decoder, text: &[u8], wanted: Result<Step, MessageFault>) -> bool {
    let main = said_on_main(decoder, text) == wanted;
    let watch = match wanted {
        Ok(step) => Ok(WatchCommand::Step(step)),
        Err(fault) => Err(fault),
    };
    said_on_watch(decoder, text) == watch && main
}

/// A decoder that has never taken memory answers each, whatever is refused; and one of too many bytes.
#[test]
fn usual_and_compact_texts_take_no_memory(rt: HostRuntime) {
    let mut decoder = Decoder::new(rt.alloc());
    for (text, read) in &texts()[..FREE] {
        let wanted = wanted_of(&rt, *read);
        let is_read = is_read(&mut decoder, text.as_bytes(), wanted);
        claim_of(&rt, is_read, "the meaning", *text);
    }
    let too_long = is_read(&mut decoder, &[b' '; 1025], Err(MessageFault::BadField));
    claim_of(&rt, too_long, "the meaning", "1,025 bytes");
    let boards = is_boards(&mut decoder, r#"{"cmd":"boards"}"#);
    claim_of(&rt, boards, "the meaning", "boards");
    drop(decoder);
}

/// A decoder reads texts one after another, and may say of one that there was no memory for it.
#[test]
fn a_decoder_reads_texts_one_after_another(rt: HostRuntime) {
    let mut decoder = Decoder::new(rt.alloc());
    for (text, read) in texts() {
        let wanted = wanted_of(&rt, *read);
        let said = said_on_main(&mut decoder, text.as_bytes());
        let is_right = said == wanted || said == Err(MessageFault::OutOfMemory);
        claim_of(&rt, is_right, "the meaning", *text);
    }
    let said = said_on_main(&mut decoder, TAKE.as_bytes());
    claim_of(&rt, said == Ok(Step::Take(7)), "the last text", TAKE);
    drop(decoder);
    let said = decode(rt.alloc(), TAKE.as_bytes());
    claim_of(&rt, said == Ok(Step::Take(7)), "by itself", TAKE);
}

/// Whether a text asks for the boards on the watch port.
fn is_boards(decoder: &mut Decoder, text: &str) -> bool {
    said_on_watch(decoder, text.as_bytes()) == Ok(WatchCommand::Boards)
}

/// What a text asks for on the main port. It is read again if there was no memory: one allocation is refused at the most.
fn read(decoder: &mut Decoder, text: &str) -> Result<Step, MessageFault> {
    match said_on_main(decoder, text.as_bytes()) {
        Err(MessageFault::OutOfMemory) => said_on_main(decoder, text.as_bytes()),
        said => said,
    }
}

/// The same on the watch port.
fn read_watch(decoder: &mut Decoder, text: &str) -> Result<WatchCommand, MessageFault> {
    match said_on_watch(decoder, text.as_bytes()) {
        Err(MessageFault::OutOfMemory) => said_on_watch(decoder, text.as_bytes()),
        said => said,
    }
}

/// Asserts that a decoder that has never taken memory reads a text, and goes on.
fn assert_goes_on(rt: &impl Abort, decoder: &mut Decoder, text: &str) {
    let said = read(decoder, text);
    claim_of(rt, said == Ok(Step::Take(7)), "read again", text);
    let said = said_on_main(decoder, PLAIN.as_bytes());
    claim_of(rt, said == Ok(Step::Take(7)), "behind it", text);
    let said = read(decoder, "[");
    claim_of(rt, said == Err(MessageFault::NotJson), "no JSON", text);
}

/// The same on the watch port.
fn assert_goes_on_watching(rt: &impl Abort, decoder: &mut Decoder, text: &str) {
    let said = read_watch(decoder, text);
    claim_of(rt, said == Ok(WatchCommand::Boards), "read again", text);
    claim_of(rt, is_boards(decoder, PLAIN_BOARDS), "behind it", text);
    let said = read_watch(decoder, "[");
    claim_of(rt, said == Err(MessageFault::NotJson), "no JSON", text);
}

#[test]
fn behind_want_of_memory_a_decoder_goes_on(rt: HostRuntime) {
    assert_goes_on(&rt, &mut Decoder::new(rt.alloc()), PLAIN);
    assert_goes_on_watching(&rt, &mut Decoder::new(rt.alloc()), PLAIN_BOARDS);
}

#[test]
fn behind_want_of_memory_for_members_a_decoder_goes_on(rt: HostRuntime) {
    assert_goes_on(&rt, &mut Decoder::new(rt.alloc()), OTHER);
    assert_goes_on_watching(&rt, &mut Decoder::new(rt.alloc()), OTHER_BOARDS);
}
