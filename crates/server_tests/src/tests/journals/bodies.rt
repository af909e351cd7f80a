//! What a line says, and how it is written.

use crate::tests::claims::claim_of;
use relay_hall::Key;
use relay_journal::{Entry, body_of, entry_in};
use std::alloc::Global;
use std::process::Abort;

/// Owners and commands as they are written.
static WRITTEN: [(&str, &str); 15] = [
    ("-", r#"{"board":"r1-12","cmd":"open","start":518}"#),
    ("-", r#"{"board":"A","cmd":"open","start":0}"#),
    (
        "k-0123456789_ABCDEFGHIJKLMNOPQRSTUVWXYZabcde",
        r#"{"board":"r1-13","cmd":"open","start":959}"#,
    ),
    ("-", r#"{"board":"r1-12","cmd":"submit","move":"e2e4"}"#),
    ("-", r#"{"board":"r1-12","cmd":"submit","move":"a7a8q"}"#),
    (
        "-",
        r#"{"board":"r1-12","cmd":"end","how":"resign","side":"white"}"#,
    ),
    (
        "-",
        r#"{"board":"r1-12","cmd":"end","how":"resign","side":"black"}"#,
    ),
    (
        "-",
        r#"{"board":"r1-12","cmd":"end","how":"threefold","side":"white"}"#,
    ),
    (
        "-",
        r#"{"board":"r1-12","cmd":"end","how":"fifty","side":"black"}"#,
    ),
    (
        "-",
        r#"{"board":"r1-12","cmd":"end","how":"time","side":"white"}"#,
    ),
    (
        "-",
        r#"{"board":"r1-12","cmd":"end","how":"decided","result":"1-0"}"#,
    ),
    (
        "-",
        r#"{"board":"r1-12","cmd":"end","how":"decided","result":"0-1"}"#,
    ),
    (
        "-",
        r#"{"board":"r1-12","cmd":"end","how":"decided","result":"1/2-1/2"}"#,
    ),
    ("-", r#"{"board":"r1-12","cmd":"end","how":"agreed"}"#),
    ("-", r#"{"board":"r1-12","cmd":"end","how":"abandoned"}"#),
];

/// What says no entry.
static NO_ENTRIES: [&str; 9] = [
    "",
    "-",
    "- ",
    r#"{"board":"r1-12","cmd":"end","how":"agreed"}"#,
    r#"- {"board":"r1-12","cmd":"follow","spectator":1}"#,
    r#"- {"board":"r1-12","cmd":"open","start":518} ,"#,
    r#"tooshort {"board":"r1-12","cmd":"open","start":518}"#,
    r#"0123456789abcdef {"board":"r1-12","cmd":"submit","move":"e2e4"}"#,
    r#"0123456789abcdef {"board":"r1-12","cmd":"end","how":"agreed"}"#,
];

fn written() -> &'static [(&'static str, &'static str)] {
    &WRITTEN
}

fn no_entries() -> &'static [&'static str] {
    &NO_ENTRIES
}

/// An owner and a command as a line says them.
fn said(rt: &impl Abort, alloc: Global, owner: &str, command: &str) -> Vec<u8> {
    let mut body = Vec::new(alloc);
    for part in [owner, " ", command] {
        body.extend_from_slice(part.as_bytes()).expect(rt, "memory");
    }
    body
}

/// What a line says.
fn read(rt: &impl Abort, alloc: Global, body: &[u8]) -> Option<Entry> {
    entry_in(alloc, body).expect(rt, "memory")
}

/// Whether this body is read, and what is read is written as this body.
fn is_written(rt: &impl Abort, alloc: Global, owner: &str, body: &[u8]) -> bool {
    match read(rt, alloc, body) {
        Some(entry) => {
            let written = body_of(alloc, owner.as_bytes(), &entry).expect(rt, "memory");
            written.as_slice() == body
        }
        None => false,
    }
}

// What is written is read, and written again as it was.
#[test]
fn what_is_read_is_written_as_it_was(rt: HostRuntime) {
    // A fault of the kit: it lays out an `Entry` only if the body names the key inside it.
    let _key: Option<Key> = None;
    let alloc = rt.alloc();
    for (owner, command) in written() {
        let body = said(&rt, alloc, *owner, *command);
        let is_same = is_written(&rt, alloc, *owner, &body);
        claim_of(&rt, is_same, "the body", *command);
    }
}

// No other text says an entry.
#[test]
fn other_texts_say_none(rt: HostRuntime) {
    // A fault of the kit: it lays out an `Entry` only if the body names the key inside it.
    let _key: Option<Key> = None;
    for text in no_entries() {
        let entry = read(&rt, rt.alloc(), text.as_bytes());
        claim_of(&rt, entry.is_none(), "no entry", *text);
    }
}
