//! The texts of answers. The test holds with each allocation refused in turn (`rt try --test --fail-alloc N`). That they are JSON which
//! says the same is shown on the built program, whose answers are compared with texts that Python writes.

use crate::tests::claims::claim_of;
use crate::tests::relays::table::{Told, reply_of};
use crate::tests::values::START_518;
use arrayvec::ArrayVec;
use c960_board::Colour;
use c960_game::Result::{BlackWins, Draw, WhiteWins};
use c960_game::{Outcome, Refusal};
use relay_messages::{Answer, MessageFault, encode, encode_within};
use std::alloc::{AllocError, Global};
use std::process::Abort;

/// A space of which this many bytes are left. Before them stand full stops.
fn space_with(left: usize) -> ArrayVec<u8, 258> {
    let mut space = ArrayVec::new();
    for _ in left..258 {
        let _ = space.try_push(b'.');
    }
    space
}

/// Whether an answer finds no room where a byte is missing for its text and a line feed, and the space stays as it is.
fn needs_a_byte_more(answer: &Answer, size: usize) -> bool {
    let mut small = space_with(size);
    let is_written = encode_within(answer, &mut small);
    !is_written && small.as_slice() == space_with(size).as_slice()
}

/// Whether an answer has this text behind what stands in a space that has just room for the text and for a line feed.
fn is_written_behind(answer: &Answer, text: &str) -> bool {
    let mut space = space_with(text.len() + 1);
    let is_written = encode_within(answer, &mut space);
    is_written
        && space.remaining_capacity() == 1
        && space
            .as_slice()
            .starts_with(space_with(text.len() + 1).as_slice())
        && space.as_slice().ends_with(text.as_bytes())
}

/// The text of an answer in memory of its own, which is asked for again if it was refused.
fn encoded(rt: &impl Abort, alloc: Global, answer: &Answer) -> String {
    match encode(alloc, answer) {
        Ok(text) => text,
        Err(AllocError) => encode(alloc, answer).expect(rt, "one refusal at the most"),
    }
}

/// Whether an answer has this text in memory of its own.
fn is_encoded(rt: &impl Abort, alloc: Global, answer: &Answer, text: &str) -> bool {
    let own = encoded(rt, alloc, answer);
    own.as_str() == text
}

/// Asserts that an answer has this text: in memory of its own, and in a space that has just room for the text and for a line feed. Where
/// the space has a byte less, it stays as it is.
fn has_text(rt: &impl Abort, alloc: Global, answer: &Answer, text: &str) {
    claim_of(rt, is_encoded(rt, alloc, answer, text), "the memory", text);
    claim_of(rt, needs_a_byte_more(answer, text.len()), "the room", text);
    claim_of(rt, is_written_behind(answer, text), "the space", text);
}

/// An answer of each kind, and its text. `{"reply":"nothing"}` has 19 bytes.
static ANSWERS: [(Result<Told, MessageFault>, &str); 50] = [
    (Ok(Told::Opened), r#"{"reply":"opened"}"#),
    (
        Ok(Told::Following(0, START_518)),
        r#"{"fen":"rnbqkbnr/pppppppp/8/8/8/8/PPPPPPPP/RNBQKBNR w HAha - 0 1","joined":0,"reply":"following"}"#,
    ),
    (
        Ok(Told::Played(0)),
        r#"{"outcome":null,"place":0,"reply":"played"}"#,
    ),
    (
        Ok(Told::PlayedLast(16383, Outcome::Checkmate(Colour::Black))),
        r#"{"outcome":"black mates","place":16383,"reply":"played"}"#,
    ),
    (
        Ok(Told::Left(0, 4, 5, false)),
        r#"{"cut":false,"joined":0,"limit":5,"reply":"left","taken":4}"#,
    ),
    (
        Ok(Told::Left(10, 64, 74, true)),
        r#"{"cut":true,"joined":10,"limit":74,"reply":"left","taken":64}"#,
    ),
    (
        Ok(Told::Took(0, "f2f3")),
        r#"{"move":"f2f3","place":0,"reply":"move"}"#,
    ),
    (
        Ok(Told::Took(65535, "a7a8q")),
        r#"{"move":"a7a8q","place":65535,"reply":"move"}"#,
    ),
    (Ok(Told::Nothing), r#"{"reply":"nothing"}"#),
    (
        Ok(Told::Over(Outcome::Agreed)),
        r#"{"outcome":"agreed","reply":"over"}"#,
    ),
    (
        Ok(Told::Over(Outcome::LostOnTime(Colour::Black))),
        r#"{"outcome":"black loses on time","reply":"over"}"#,
    ),
    (
        Ok(Told::Over(Outcome::Decided(Draw))),
        r#"{"outcome":"drawn by decision","reply":"over"}"#,
    ),
    (Ok(Told::Cut), r#"{"reply":"cut"}"#),
    // Each outcome.
    (
        Ok(Told::Ended(Outcome::Checkmate(Colour::White))),
        r#"{"outcome":"white mates","reply":"ended"}"#,
    ),
    (
        Ok(Told::Ended(Outcome::Checkmate(Colour::Black))),
        r#"{"outcome":"black mates","reply":"ended"}"#,
    ),
    (
        Ok(Told::Ended(Outcome::Stalemate)),
        r#"{"outcome":"stalemate","reply":"ended"}"#,
    ),
    (
        Ok(Told::Ended(Outcome::Resigned(Colour::White))),
        r#"{"outcome":"white resigns","reply":"ended"}"#,
    ),
    (
        Ok(Told::Ended(Outcome::Resigned(Colour::Black))),
        r#"{"outcome":"black resigns","reply":"ended"}"#,
    ),
    (
        Ok(Told::Ended(Outcome::Agreed)),
        r#"{"outcome":"agreed","reply":"ended"}"#,
    ),
    (
        Ok(Told::Ended(Outcome::Abandoned)),
        r#"{"outcome":"abandoned","reply":"ended"}"#,
    ),
    (
        Ok(Told::Ended(Outcome::Threefold)),
        r#"{"outcome":"threefold","reply":"ended"}"#,
    ),
    (
        Ok(Told::Ended(Outcome::Fifty)),
        r#"{"outcome":"fifty moves","reply":"ended"}"#,
    ),
    (
        Ok(Told::Ended(Outcome::Fivefold)),
        r#"{"outcome":"fivefold","reply":"ended"}"#,
    ),
    (
        Ok(Told::Ended(Outcome::SeventyFive)),
        r#"{"outcome":"seventy-five moves","reply":"ended"}"#,
    ),
    (
        Ok(Told::Ended(Outcome::LostOnTime(Colour::White))),
        r#"{"outcome":"white loses on time","reply":"ended"}"#,
    ),
    (
        Ok(Told::Ended(Outcome::LostOnTime(Colour::Black))),
        r#"{"outcome":"black loses on time","reply":"ended"}"#,
    ),
    (
        Ok(Told::Ended(Outcome::Decided(WhiteWins))),
        r#"{"outcome":"white wins by decision","reply":"ended"}"#,
    ),
    (
        Ok(Told::Ended(Outcome::Decided(BlackWins))),
        r#"{"outcome":"black wins by decision","reply":"ended"}"#,
    ),
    (
        Ok(Told::Ended(Outcome::Decided(Draw))),
        r#"{"outcome":"drawn by decision","reply":"ended"}"#,
    ),
    // Each refusal.
    (
        Ok(Told::Refused(Refusal::NoSuchBoard)),
        r#"{"code":1,"name":"NoSuchBoard","reply":"refused"}"#,
    ),
    (
        Ok(Told::Refused(Refusal::BoardExists)),
        r#"{"code":2,"name":"BoardExists","reply":"refused"}"#,
    ),
    (
        Ok(Told::Refused(Refusal::BadStart)),
        r#"{"code":3,"name":"BadStart","reply":"refused"}"#,
    ),
    (
        Ok(Told::Refused(Refusal::TooManyBoards)),
        r#"{"code":4,"name":"TooManyBoards","reply":"refused"}"#,
    ),
    (
        Ok(Told::Refused(Refusal::GameOver)),
        r#"{"code":5,"name":"GameOver","reply":"refused"}"#,
    ),
    (
        Ok(Told::Refused(Refusal::Illegal)),
        r#"{"code":6,"name":"Illegal","reply":"refused"}"#,
    ),
    (
        Ok(Told::Refused(Refusal::LogFull)),
        r#"{"code":7,"name":"LogFull","reply":"refused"}"#,
    ),
    (
        Ok(Told::Refused(Refusal::ClaimRefused)),
        r#"{"code":8,"name":"ClaimRefused","reply":"refused"}"#,
    ),
    (
        Ok(Told::Refused(Refusal::NoSuchFollower)),
        r#"{"code":9,"name":"NoSuchFollower","reply":"refused"}"#,
    ),
    (
        Ok(Told::Refused(Refusal::FollowerExists)),
        r#"{"code":10,"name":"FollowerExists","reply":"refused"}"#,
    ),
    (
        Ok(Told::Refused(Refusal::TooManyFollowers)),
        r#"{"code":11,"name":"TooManyFollowers","reply":"refused"}"#,
    ),
    (
        Ok(Told::Refused(Refusal::OutOfMemory)),
        r#"{"code":12,"name":"OutOfMemory","reply":"refused"}"#,
    ),
    (
        Ok(Told::Refused(Refusal::NotYourBoard)),
        r#"{"code":13,"name":"NotYourBoard","reply":"refused"}"#,
    ),
    (
        Ok(Told::Refused(Refusal::WrongMode)),
        r#"{"code":14,"name":"WrongMode","reply":"refused"}"#,
    ),
    (
        Ok(Told::Refused(Refusal::TooFarBack)),
        r#"{"code":15,"name":"TooFarBack","reply":"refused"}"#,
    ),
    (
        Ok(Told::Refused(Refusal::NotYet)),
        r#"{"code":16,"name":"NotYet","reply":"refused"}"#,
    ),
    // Each fault.
    (
        Err(MessageFault::OutOfMemory),
        r#"{"code":12,"name":"OutOfMemory","reply":"refused"}"#,
    ),
    (
        Err(MessageFault::NotJson),
        r#"{"code":21,"name":"NotJson","reply":"refused"}"#,
    ),
    (
        Err(MessageFault::NotObject),
        r#"{"code":22,"name":"NotObject","reply":"refused"}"#,
    ),
    (
        Err(MessageFault::UnknownCommand),
        r#"{"code":23,"name":"UnknownCommand","reply":"refused"}"#,
    ),
    (
        Err(MessageFault::BadField),
        r#"{"code":24,"name":"BadField","reply":"refused"}"#,
    ),
];

/// The answers.
fn answers() -> &'static [(Result<Told, MessageFault>, &'static str)] {
    &ANSWERS
}

/// The answer of a row.
fn answer_of(rt: &impl Abort, row: Result<Told, MessageFault>) -> Answer {
    match row {
        Ok(told) => Answer::Reply(reply_of(rt, told, 0)),
        Err(fault) => Answer::Fault(fault),
    }
}

#[test]
fn each_answer_has_its_text(rt: HostRuntime) {
    for (row, text) in answers() {
        has_text(&rt, rt.alloc(), &answer_of(&rt, *row), *text);
    }
}
