//! Two ways in which texts are read apart from all others: usual objects, whose keys stand in the order in which nearly all clients write
//! them, and compact ones, without escapes and with few spaces. Behind a space a text means the same, and is read in the general way: on
//! texts on both sides of the forms, the ways agree.

use crate::tests::chance::Dice;
use crate::tests::claims::claim;
use crate::tests::messages::ways::{said_on_main, said_on_watch};
use arrayvec::ArrayVec;
use relay_messages::{Decoder, MessageFault};
use std::alloc::Global;
use std::process::Abort;

/// How many of the texts below are changed at each place.
const CHANGED: usize = 23;

/// Texts that are usual, compact, or nearly so.
static TEXTS: [&str; 77] = [
    // Usual objects.
    r#"{"cmd":"take","spectator":1}"#,
    r#"{"cmd":"leave","spectator":4294967295}"#,
    r#"{"cmd":"submit","board":"b1","move":"e2e4"}"#,
    r#"{"cmd":"follow","board":"b1","spectator":7}"#,
    r#"{"cmd":"follow","board":"b1","spectator":7,"from":65535}"#,
    // Commands, some of them not as a client writes them.
    r#"{"cmd":"submit","board":"b1","move":"e2e4"}"#,
    r#"{"cmd":"follow","board":"b1","spectator":4294967295,"from":65535}"#,
    r#"{"cmd":"end","board":"b1","how":"resign","side":"white"}"#,
    r#"{"cmd":"end","board":"b1","how":"decided","result":"1/2-1/2"}"#,
    r#"{"board":"b1","start":960,"cmd":"open"}"#,
    r#"{"cmd":"boards"}"#,
    r#"{"cmd":"take","spectator":0,"a":1,"b":2}"#,
    r#"{"cmd":"take","spectator":0,"a":1,"b":2,"c":3}"#,
    r#"{"cmd":"take","cmd":"leave","spectator":1}"#,
    r#"{"cmd":"leave","spectator":18446744073709551616}"#,
    r#"{"cmd":"leave","spectator":1000000000000000000000000000}"#,
    r#"{"cmd":"submit","board":"b\u0031","move":"e2e4"}"#,
    r#"{"cmd": "submit", "board": "b1", "move": "e2e4"}"#,
    r#"{"cmd": "take",  "spectator":  1}"#,
    r#"{ "cmd" : "submit", "board" : "b1", "move" : "e2e4" }"#,
    r#"{"cmd":"open","board":"é","start":1e2}"#,
    "{\"cmd\":\"take\",\"spectator\":7}\r",
    "{}",
    // Nearly usual, or usual and no command.
    // The keys in another order, too few, too many, or one of them again.
    r#"{"spectator":1,"cmd":"take"}"#,
    r#"{"cmd":"take"}"#,
    r#"{"cmd":"take","cmd":"leave","spectator":1}"#,
    r#"{"cmd":"take","spectator":1,"spectator":2}"#,
    r#"{"cmd":"take","spectator":1,"cmd":"leave"}"#,
    r#"{"cmd":"take","spectator":1,"a":0}"#,
    r#"{"cmd":"take","spectator":1,"board":"b1"}"#,
    r#"{"cmd":"submit","move":"e2e4","board":"b1"}"#,
    r#"{"board":"b1","cmd":"submit","move":"e2e4"}"#,
    r#"{"cmd":"submit","board":"b1"}"#,
    r#"{"cmd":"submit","board":"b1","board":"b2","move":"e2e4"}"#,
    r#"{"cmd":"submit","board":"b1","move":"e2e4","move":"d2d4"}"#,
    r#"{"cmd":"submit","board":"b1","move":"e2e4","from":0}"#,
    r#"{"cmd":"follow","spectator":7,"board":"b1"}"#,
    r#"{"cmd":"follow","board":"b1","from":0,"spectator":7}"#,
    r#"{"cmd":"follow","board":"b1","spectator":7,"spectator":8}"#,
    r#"{"cmd":"follow","board":"b1","spectator":7,"from":0,"from":1}"#,
    r#"{"cmd":"follow","board":"b1","spectator":7,"from":0,"cmd":"take"}"#,
    // Each command with the keys of the others.
    r#"{"cmd":"take","board":"b1","spectator":1}"#,
    r#"{"cmd":"leave","board":"b1","move":"e2e4"}"#,
    r#"{"cmd":"submit","spectator":1}"#,
    r#"{"cmd":"submit","board":"b1","spectator":7}"#,
    r#"{"cmd":"follow","board":"b1","move":"e2e4"}"#,
    r#"{"cmd":"open","board":"b1","spectator":518}"#,
    r#"{"cmd":"end","board":"b1","move":"agreed"}"#,
    r#"{"cmd":"boards","spectator":1}"#,
    r#"{"cmd":"boards","board":"b1","spectator":1}"#,
    r#"{"cmd":"boards","board":"b1","spectator":1,"from":0}"#,
    // Other keys, and other forms of a value.
    r#"{"Cmd":"take","spectator":1}"#,
    r#"{"cmd":"take","spectato":1}"#,
    r#"{"cmd":"take","spectators":1}"#,
    r#"{"cmd":0,"spectator":1}"#,
    r#"{"cmd":"take","spectator":"1"}"#,
    r#"{"cmd":"submit","board":1,"move":"e2e4"}"#,
    r#"{"cmd":"submit","board":"b1","move":4}"#,
    r#"{"cmd":"follow","board":"b1","spectator":null}"#,
    r#"{"cmd":"follow","board":"b1","spectator":7,"from":null}"#,
    // Escapes, and empty texts.
    r#"{"cmd":"t\u0061ke","spectator":1}"#,
    r#"{"cmd":"submit","board":"b\/1","move":"e2e4"}"#,
    r#"{"cmd":"submit","board":"b1","move":"e2e\u0034"}"#,
    r#"{"cmd":"","spectator":1}"#,
    r#"{"cmd":"submit","board":"","move":"e2e4"}"#,
    r#"{"cmd":"submit","board":"b1","move":""}"#,
    r#"{"":"take","spectator":1}"#,
    // What is no JSON.
    r#"{"cmd":"take","spectator":1}}"#,
    r#"{"cmd":"take","spectator":1,}"#,
    r#"{"cmd":"take",,"spectator":1}"#,
    r#"{"cmd":"take";"spectator":1}"#,
    r#"{"cmd":"take","spectator"1}"#,
    r#"{"cmd":"take","spectator":}"#,
    r#"{"cmd""take","spectator":1}"#,
    r#"{"cmd":"take" "spectator":1}"#,
    r#"["cmd":"take","spectator":1}"#,
    r#"{"cmd":"take","spectator":1]"#,
];

/// The texts.
fn texts() -> &'static [&'static str; 77] {
    &TEXTS
}

/// White space in JSON, and a character that is none.
const GAPS: [&[u8]; 7] = [b" ", b"  ", b"\t", b"\n", b"\r\n", b" \t", b"\xc2\xa0"];

/// What stands before a number in usual objects.
const FRONTS: [&str; 3] = [
    r#"{"cmd":"take","spectator":"#,
    r#"{"cmd":"follow","board":"b1","spectator":"#,
    r#"{"cmd":"follow","board":"b1","spectator":7,"from":"#,
];

/// Numbers at both sides of the bounds of a place, of a spectator and of 64 bits, and other forms.
static NUMBERS: [&str; 18] = [
    "0",
    "00",
    "01",
    "9",
    "65535",
    "65536",
    "4294967294",
    "4294967295",
    "4294967296",
    "999999999999999999",
    "1000000000000000000",
    "18446744073709551615",
    "18446744073709551616",
    "184467440737095516160",
    "-0",
    "-1",
    "1.0",
    "1e0",
];

/// The numbers.
fn numbers() -> &'static [&'static str] {
    &NUMBERS
}

/// What stands before and behind a text of any length. Usual and compact objects have at most 128 bytes.
const LONG: [(&str, &str); 4] = [
    (r#"{"cmd":"submit","board":""#, r#"","move":"e2e4"}"#),
    (r#"{"cmd":"submit","board":""#, r#"","spectator":7}"#),
    (r#"{"cmd":"take","spectator":7,"a":""#, r#""}"#),
    (r#"{"cmd":"take","spectator":7,"a":""#, r#"""#),
];

/// Members, some of them none.
static MEMBERS: [&str; 42] = [
    r#""cmd":"open""#,
    r#""cmd":"submit""#,
    r#""cmd":"end""#,
    r#""cmd":"follow""#,
    r#""cmd":"take""#,
    r#""cmd":"leave""#,
    r#""cmd":"boards""#,
    r#""cmd":"""#,
    r#""cmd":0"#,
    r#""board":"b1""#,
    r#""board":"b\u0031""#,
    r#""board":"é""#,
    r#""board":"a/b""#,
    "\"board\":\"a\u{7f}b\"",
    "\"board\":\"a\tb\"",
    r#""board":"a"b""#,
    r#""board":"#,
    r#""board":null"#,
    r#""board" :"b1""#,
    r#""board": "b1""#,
    r#" "board":"b1""#,
    r#""move":"e2e4""#,
    r#""move":"a7a8q""#,
    r#""how":"agreed""#,
    r#""how":"resign""#,
    r#""how":"decided""#,
    r#""side":"white""#,
    r#""result":"1-0""#,
    r#""start":518"#,
    r#""start":00518"#,
    r#""start":65536"#,
    r#""from":0"#,
    r#""from":-0"#,
    r#""from":1.0"#,
    r#""spectator":7"#,
    r#""spectator":7x"#,
    r#""spectator":18446744073709551615"#,
    r#""spectator":18446744073709551616"#,
    r#""spectator":999999999999999999"#,
    r#""spectator":10000000000000000000"#,
    r#""spectator":[7]"#,
    "",
];

/// One of the members.
fn member_by(number: u32) -> &'static str {
    MEMBERS[(number % 42) as usize]
}

/// What stands between two members, nearly always a comma.
static BETWEEN: [&str; 8] = [",", ",", ",", ",", ",", ", ", "", ":"];

/// What stands behind the members, mostly a brace.
static BEHIND: [&str; 8] = ["}", "}", "}", "}", "} ", "}}", "},", ""];

/// A text behind a space; none if it is longer than a text may be.
type Spaced = ArrayVec<u8, 1024>;

/// The text of these three pieces behind a space.
fn spaced(before: &[u8], between: &[u8], behind: &[u8]) -> Spaced {
    let mut text = ArrayVec::new();
    let _ = text.try_push(b' ');
    let _ = text.try_extend_from_slice(before);
    let _ = text.try_extend_from_slice(between);
    let _ = text.try_extend_from_slice(behind);
    text
}

/// Whether a text is decoded as behind a space on the main port, or there was no memory for that.
fn agrees(decoder: &mut Decoder, spaced: &[u8], text: &[u8]) -> bool {
    let said = said_on_main(decoder, spaced);
    said == Err(MessageFault::OutOfMemory) || said_on_main(decoder, text) == said
}

/// The same on the watch port.
fn agrees_watching(decoder: &mut Decoder, spaced: &[u8], text: &[u8]) -> bool {
    let said = said_on_watch(decoder, spaced);
    said == Err(MessageFault::OutOfMemory) || said_on_watch(decoder, text) == said
}

/// Asserts that the text of these three pieces is decoded as behind a space, on both ports.
fn assert_agrees(
    rt: &impl Abort,
    decoder: &mut Decoder,
    before: &[u8],
    between: &[u8],
    behind: &[u8],
) {
    let spaced = spaced(before, between, behind);
    let text = spaced.as_slice().get(1..).unwrap_or(b"");
    let main = agrees(decoder, spaced.as_slice(), text);
    let watch = agrees_watching(decoder, spaced.as_slice(), text);
    assert!(rt; main && watch, "{text:?}");
}

/// Asserts it of a text up to a place, with a gap there, and with any other byte there.
fn assert_around(rt: &impl Abort, decoder: &mut Decoder, before: &[u8], behind: &[u8]) {
    assert_agrees(rt, decoder, before, b"", b"");
    for gap in GAPS {
        assert_agrees(rt, decoder, before, gap, behind);
    }
    let rest = behind.get(1..).unwrap_or(b"");
    for byte in 0..=255 {
        assert_agrees(rt, decoder, before, &[byte], rest);
    }
}

#[test]
fn a_text_that_is_changed_at_any_place_is_read_as_behind_a_space(rt: HostRuntime) {
    let mut decoder = Decoder::new(rt.alloc());
    for text in texts() {
        assert_agrees(&rt, &mut decoder, text.as_bytes(), b"", b"");
    }
    for text in &texts()[..CHANGED] {
        let bytes = text.as_bytes();
        for place in 0..=bytes.len() {
            assert_around(&rt, &mut decoder, &bytes[..place], &bytes[place..]);
        }
    }
    // Not UTF-8.
    let said = said_on_watch(&mut decoder, b"{\"cmd\":\"boards\xff\"}");
    claim(&rt, said == Err(MessageFault::NotJson), "not UTF-8");
    drop(decoder);
}

/// Asserts that each number is read as behind a space, if this stands before it.
fn assert_numbers(rt: &impl Abort, decoder: &mut Decoder, front: &str) {
    for number in numbers() {
        assert_agrees(rt, decoder, front.as_bytes(), number.as_bytes(), b"}");
    }
}

/// Asserts that up to 960 letters are read as behind a space, if these stand before and behind them.
fn assert_lengths(rt: &impl Abort, decoder: &mut Decoder, front: &str, behind: &str) {
    let letters = [b'x'; 960];
    for length in 0..=960 {
        let name = &letters[..length];
        assert_agrees(rt, decoder, front.as_bytes(), name, behind.as_bytes());
    }
}

#[test]
fn any_number_and_any_length_is_read_as_behind_a_space(rt: HostRuntime) {
    let mut decoder = Decoder::new(rt.alloc());
    for front in FRONTS {
        assert_numbers(&rt, &mut decoder, front);
    }
    for (front, behind) in LONG {
        assert_lengths(&rt, &mut decoder, front, behind);
    }
    drop(decoder);
}

/// Adds a piece to a text.
fn add(rt: &impl Abort, text: &mut Vec<u8>, piece: &str) {
    let added = text.extend_from_slice(piece.as_bytes());
    added.expect(rt, "memory");
}

/// Members by chance, as many as an object may have that is read without the general way, or one or two more.
fn text_by_chance(rt: &impl Abort, alloc: Global, dice: &mut Dice) -> Vec<u8> {
    let mut text = Vec::new(alloc);
    add(rt, &mut text, "{");
    let count = dice.roll() % 6;
    for place in 0..count {
        if place > 0 {
            add(rt, &mut text, BETWEEN[dice.roll() as usize % 8]);
        }
        add(rt, &mut text, member_by(dice.roll()));
    }
    add(rt, &mut text, BEHIND[dice.roll() as usize % 8]);
    text
}

#[test]
fn members_by_chance_are_read_as_behind_a_space(rt: HostRuntime) {
    let mut decoder = Decoder::new(rt.alloc());
    let mut dice = Dice { seed: 5 };
    for _ in 0..20000 {
        let text = text_by_chance(&rt, rt.alloc(), &mut dice);
        assert_agrees(&rt, &mut decoder, text.as_slice(), b"", b"");
    }
    drop(decoder);
}
